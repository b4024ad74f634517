// One state and one rule: whether some path into the state breaks a condition.
ghost use Rattle.std.specs.Prelude.{◌≡◌, not};
ghost use Rattle.tables.specs.Lists.{lowest};
ghost use Rattle.soundness.specs.Laws.Judged.{ends_at};
ghost use Rattle.soundness.specs.Laws.Back.{stands_before, ends_well};
ghost use Rattle.soundness.specs.Laws.Faults.{Sides};

use crate::paths::{Paths, Row};

// A rule: its number, and its sides.
#[derive(Clone, Copy)]
pub(crate) struct Rule<'a> {
    pub(crate) number: u32,
    pub(crate) left: u32,
    pub(crate) right: &'a [u32],
}

impl<'a> Paths<'a> {
    // Before the right side of rule 1 stands state 0, before that of another rule a state with a goto on its left side.
    fn may_stand_before(self, rule: Rule, t: u32) -> bool
        ensures { result ≡ stands_before self.entry.judged rule.entry t }
    {
        if rule.number == 1 {
            t == 0
        } else {
            self.judged.edge(t, rule.left).is_some()
        }
    }

    // t is not in the set, or may stand before the right side.
    fn ends_well(self, set: &[bool], rule: Rule, t: u32) -> bool
        ensures { result ≡ ends_well self.entry.judged set.now rule.entry t }
    {
        !number::at(set, t as usize, false) || self.may_stand_before(rule, t)
    }

    // The lowest state of the set that may not stand before the right side.
    fn lowest_bad_end(self, set: &[bool], rule: Rule) -> Option<u32>
        ensures { result ≡ lowest (ends_well self.entry.judged set.now rule.entry) self.entry.judged.table.states }
    {
        (0..self.judged.table.states).find(|t| !self.ends_well(set, rule, *t))
    }
}

impl<'a> Row<'a> {
    // Some path into the state breaks a condition for the rule.
    pub(crate) fn fails(self, rule: Rule) -> bool
        requires { Sides self.paths.judged rule }
        ensures { result ≡ not (ends_at self.entry.paths.judged self.entry.state rule.entry.number) }
    {
        // No heap: a set of states is flags in the frame.
        let mut set = [false; 1024];
        number::put(&mut set, self.state as usize, true);
        for y in rule.right.iter().rev() {
            if self.paths.lowest_astray(&set, *y).is_some() {
                return true;
            }
            set = self.paths.step_back(&set, *y);
        }
        self.paths.lowest_bad_end(&set, rule).is_some()
    }
}
