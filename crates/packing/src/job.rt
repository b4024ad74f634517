// What is packed: a table and its signing, once they have been judged.
ghost use Rattle.std.specs.Prelude.{◌≡◌, ◌≤◌, get_or};
ghost use Rattle.number.specs.Number.{number_of, sign_of};
ghost use Rattle.tables.specs.Entry.{entry_at};
ghost use Rattle.packing.specs.Bounds.{Tame, TameRules};
ghost use Rattle.packing.specs.Job.{sign_check};

use number::Signed;
use tables::{Signing, Sizes, Table};

// A table and a signing that have been judged, how many cells there are, and how many bases are tried at most.
#[derive(Clone, Copy)]
pub(crate) struct Job<'a> {
    pub(crate) sizes: Sizes,
    pub(crate) table: Table<'a>,
    pub(crate) signing: Signing<'a>,
    pub(crate) cells: usize,
    pub(crate) tries: usize,
    ghost tame: { Tame sizes signing.rules.now },
    ghost rules: { TameRules sizes table.entries.now },
    ghost most: { cells ≤ 65536 },
    ghost few: { tries ≤ 3000000 },
}

impl<'a> Job<'a> {
    ghost use Rattle.packing.specs.Lent.{asked};

    // The entry of state s and symbol a, taken apart.
    #[tactic(auto, unfolding(tables::specs::Entry::entry_at))]
    pub(crate) fn entry(self, s: u32, a: u32) -> Signed
        ensures { result ≡ sign_of (entry_at self.entry.sizes self.entry.table.entries.now s a) }
    {
        number::at_i32(
            self.table.entries,
            s as usize * self.sizes.symbols as usize + a as usize,
        )
    }

    // Check of the attached cell of state t: its signed rule, or the empty mark.
    pub(crate) fn attached(self, t: u32) -> Signed
        ensures { number_of result ≡ sign_check (asked self.entry) (get_or self.entry.signing.rules.now t 0) }
    {
        let r = number::at(self.signing.rules, t as usize, 0);
        if r == 0 {
            Signed::Plus(self.sizes.symbols)
        } else {
            Signed::Minus(r)
        }
    }
}
