// The states from which the last symbols of a path begin, one symbol at a time from the right.
ghost use Rattle.std.specs.Prelude.{◌≡◌};
ghost use Rattle.tables.specs.Lists.{lowest};
ghost use Rattle.soundness.specs.Laws.Back.{entered_on, led_in, Marked};

use crate::paths::Paths;
use crate::ways::{WayIn, is_unreached};

impl<'a> Paths<'a> {
    // t is not in the set, or all that enters it enters on y.
    fn is_entered_on(self, set: &[bool], y: u32, t: u32) -> bool
        ensures { result ≡ entered_on self.entry set.now y t }
    {
        !number::at(set, t as usize, false)
            || number::at(self.ways, t as usize, WayIn::Unreached).is_on(y)
    }

    // The lowest state of the set that is entered otherwise than on y.
    pub(crate) fn lowest_astray(self, set: &[bool], y: u32) -> Option<u32>
        ensures { result ≡ lowest (entered_on self.entry set.now y) self.entry.judged.table.states }
    {
        (0..self.judged.table.states).find(|t| !self.is_entered_on(set, y, *t))
    }

    // s is reached and its edge on y leads into the set.
    fn leads_in(self, set: &[bool], y: u32, s: u32) -> bool
        ensures { result ≡ led_in self.entry set.now y s }
    {
        !is_unreached(self.ways, s)
            && self
                .judged
                .edge(s, y)
                .is_some_and(|t| number::at(set, t as usize, false))
    }

    // The reached states whose edge on y leads into the set.
    pub(crate) fn step_back(self, set: &[bool], y: u32) -> [bool; 1024]
        ensures { Marked (led_in self.entry set.now y) self.entry.judged.table.states result }
    {
        // No heap: a set of states is flags in the frame.
        let mut next = [false; 1024];
        for s in 0..self.judged.table.states {
            next[s as usize] = self.leads_in(set, y, s);
        }
        next
    }
}
