// What is known of a table that was judged, and of the paths of its edges.
ghost use Rattle.std.specs.Prelude.{◌≡◌, []};
ghost use Rattle.tables.specs.Said.{OK};
ghost use Rattle.tables.specs.Entry.{goto_at};
ghost use Rattle.tables.specs.Judgement.{judgement};
ghost use Rattle.soundness.specs.Laws.Edges.{Reached};
ghost use Rattle.soundness.specs.Laws.Walk.{Entered};

use crate::ways::WayIn;
use tables::{Grammar, Signing, Table};

// A grammar, its table and its signing, of which the judgement refuses nothing.
#[derive(Clone, Copy)]
pub(crate) struct Judged<'a> {
    pub(crate) grammar: Grammar<'a>,
    pub(crate) table: Table<'a>,
    pub(crate) signing: Signing<'a>,
    ghost good: { judgement grammar.sizes table.states grammar.left.now grammar.lens.now grammar.rights.now table.entries.now signing.rules.now signing.targets.now ≡ OK [] },
}

// The same, and the way into each state.
#[derive(Clone, Copy)]
pub(crate) struct Paths<'a> {
    pub(crate) judged: Judged<'a>,
    pub(crate) ways: &'a [WayIn],
    ghost entered: { ∥ Entered judged.grammar.sizes judged.table.states judged.table.entries.now ways.now ∥₁ },
}

// The same, and a state that some path reaches.
#[derive(Clone, Copy)]
pub(crate) struct Row<'a> {
    pub(crate) paths: Paths<'a>,
    pub(crate) state: u32,
    ghost reached: { ∥ Reached paths.judged.grammar.sizes paths.judged.table.entries.now state ∥₁ },
}

impl<'a> Judged<'a> {
    // The state that the edge of s on x leads to: a shift is read as a goto is.
    pub(crate) fn edge(self, s: u32, x: u32) -> Option<u32>
        ensures { result ≡ goto_at self.entry.grammar.sizes self.entry.table.entries.now s x }
    {
        entries::goto_at(self.grammar.sizes, self.table.entries, s, x)
    }
}
