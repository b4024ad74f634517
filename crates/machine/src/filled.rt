// The filled table as a way of reading.
ghost use Rattle.machine.specs.Reads.{Ruled, plain_reads};

use reads::{Read, Reading, Way};
use tables::{Action, Signing, Sizes, Table};

// The filled table: a table with its signing.
#[derive(Clone, Copy)]
pub(crate) struct Filled<'a> {
    pub sizes: Sizes,
    pub table: Table<'a>,
    pub signing: Signing<'a>,
    pub ghost ruled: { Ruled sizes table.entries.now signing.rules.now },
}

impl<'a> Reading for Filled<'a> {
    ghost reads = { λ f. plain_reads f.sizes f.table.entries.now f.signing.rules.now f.signing.targets.now };

    ghost rules = { λ f. f.sizes.rules };

    #[tactic(auto, using(crate::specs::Laws::Ruled::ruled_sound), unfolding(crate::specs::Reads::plain_reads))]
    fn action(&self, state: u32, terminal: u32) -> Option<Read> {
        let entry = entries::filled_action_at(
            self.sizes,
            self.table.entries,
            self.signing.rules,
            state,
            terminal,
        );
        // A `From` would stand in `tables` or `reads`, neither of which knows the other.
        Some(match entry {
            Action::Blank => Read::Blank,
            Action::Shift(t) => Read::Shift(Way::Direct(t as usize)),
            Action::Reduce(r) => Read::Reduce(r),
            Action::Accept => Read::Accept,
        })
    }

    #[tactic(auto, unfolding(crate::specs::Reads::plain_reads))]
    fn goto(&self, state: u32, nonterminal: u32) -> Option<Read> {
        let entry = entries::filled_goto_at(
            self.sizes,
            self.table.entries,
            self.signing.targets,
            state,
            nonterminal,
        );
        Some(match entry {
            None => Read::Blank,
            Some(t) => Read::Shift(Way::Direct(t as usize)),
        })
    }
}
