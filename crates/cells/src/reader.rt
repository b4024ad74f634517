// Cells as a way of reading.
ghost use Rattle.std.specs.Prelude.{◌≡◌, true};
ghost use Rattle.cells.specs.Size.{cells_fit};
ghost use Rattle.cells.specs.Reads.{cell_reads};

use crate::reading::Cells;
use reads::{Read, Reading};

// Cells whose number fits, of a grammar with so many rules.
#[derive(Clone, Copy)]
pub struct Reader<'a> {
    pub rules: u32,
    pub cells: Cells<'a>,
    pub ghost fit: { cells_fit cells.base.now cells.check.now ≡ true },
}

impl<'a> Reading for Reader<'a> {
    ghost reads = { λ r. cell_reads r.rules r.cells.base.now r.cells.check.now };

    ghost rules = { λ r. r.rules };

    #[tactic(auto, using(crate::specs::Laws::Sound::reads_sound), unfolding(crate::specs::Reads::cell_reads))]
    fn action(&self, state: u32, terminal: u32) -> Option<Read> {
        self.cells.action_at(self.rules, state, terminal)
    }

    #[tactic(auto, using(crate::specs::Laws::Sound::reads_sound), unfolding(crate::specs::Reads::cell_reads))]
    fn goto(&self, state: u32, nonterminal: u32) -> Option<Read> {
        self.cells.goto_at(self.rules, state, nonterminal)
    }
}
