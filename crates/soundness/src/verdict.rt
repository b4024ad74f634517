// The table check: SIZE, GRAMMAR, ENTRY and SIGN, then the least state and rule that fail.
ghost use Rattle.std.specs.Prelude.{◌≡◌, ◌<◌, IfSome};
ghost use Rattle.soundness.specs.Outcome.{verdict_said, checked};
ghost use Rattle.soundness.specs.Answer.{said_of};
ghost use Rattle.soundness.specs.Laws.Judged.{fault_at, verdict_of};

use crate::CheckRefusal;
use crate::paths::{Judged, Paths, Row};
use crate::ways::{WayIn, is_unreached};
use judgement::judge::judge;
use tables::{Grammar, Signing, Table};

impl<'a> Paths<'a> {
    // The lowest rule, counted from 0, that fails at s; none where no path leads to s.
    fn lowest_at(self, s: u32) -> Option<usize>
        ensures lowest { result ≡ fault_at self.entry.judged s }
        ensures below { IfSome result (λ i. i < 1024) }
    {
        if is_unreached(self.ways, s) {
            return None;
        }
        Row {
            paths: self,
            state: s,
        }
        .lowest_failing()
    }
}

impl<'a> Judged<'a> {
    // The least state, then the least rule, that fails on some path.
    fn verdict(self) -> Result<(), CheckRefusal>
        ensures { said_of result ≡ verdict_said (verdict_of self.entry) }
    {
        // No heap: the ways stand in the frame.
        let mut ways = [WayIn::Unreached; 1024];
        self.find_ways(&mut ways);
        let paths = Paths {
            judged: self,
            ways: &ways,
        };
        for s in 0..self.table.states {
            if let Some(i) = paths.lowest_at(s) {
                return Err(CheckRefusal::Unsound(s, i as u32 + 1));
            }
        }
        Ok(())
    }
}

// SIZE, GRAMMAR, ENTRY, SIGN, else whether every path keeps the conditions.
pub fn check(grammar: Grammar, table: Table, signing: Signing) -> Result<(), CheckRefusal>
    ensures { said_of result ≡ checked grammar.entry.sizes table.entry.states grammar.entry.left.now grammar.entry.lens.now grammar.entry.rights.now table.entry.entries.now signing.entry.rules.now signing.entry.targets.now }
{
    judge(grammar, table, signing)?;
    Judged {
        grammar,
        table,
        signing,
    }
    .verdict()
}
