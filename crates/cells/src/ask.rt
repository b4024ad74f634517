// A read asked for by itself.
ghost use Rattle.std.specs.Prelude.{◌≡◌, true};
ghost use Rattle.cells.specs.Read.{cells_of, twice, read_cell};
ghost use Rattle.cells.specs.Asked.{said_of, kind_of, read_fits, read_said};
ghost use Rattle.cells.specs.Size.{cells_fit};

use crate::ReadRefusal;
use crate::reading::Cells;
use crate::size::cells_fit;
use reads::Read;
use tables::Sizes;
use tables::size::numbers_fit;

// The numbers, the cells and the symbol fit.
#[tactic(auto, using(std::proofs::lemmas::Bool::Decides::nat_tests), unfolding(crate::specs::Asked::read_fits))]
fn read_fits(z: Sizes, cells: Cells, a: u32) -> bool
    ensures { result ≡ read_fits z cells.entry.base.now cells.entry.check.now a }
{
    numbers_fit(z) && (cells_fit(cells.base, cells.check) && a < z.symbols)
}

// The read of symbol a at cell x, which may lie anywhere.
#[tactic(auto, using(std::proofs::lemmas::Bool::Decides::nat_tests, crate::specs::Laws::Size::cells_fit_lem), unfolding(crate::specs::Asked::kind_of, crate::specs::Read::read_cell, crate::specs::Read::cells_of))]
fn read_at(z: Sizes, cells: Cells, x: usize, a: u32) -> Option<Read>
    requires { cells_fit cells.base.now cells.check.now ≡ true }
    ensures { result ≡ read_cell (kind_of z a) (cells_of z.rules twice cells.entry.base.now cells.entry.check.now) x a }
{
    if x >= cells.base.len() {
        return None;
    }
    if a < z.terminals {
        cells.action_at(z.rules, x as u32, a)
    } else {
        cells.goto_at(z.rules, x as u32, a)
    }
}

// The read of symbol a at cell x: SIZE, then BADCELL, then the answer.
#[tactic(auto, using(crate::specs::Laws::Asked::read_fits_lem), unfolding(crate::specs::Asked::read_said))]
pub fn read(z: Sizes, cells: Cells, x: usize, a: u32) -> Result<Read, ReadRefusal>
    ensures { said_of result ≡ read_said z cells.entry.base.now cells.entry.check.now x a }
{
    if !read_fits(z, cells, a) {
        return Err(ReadRefusal::Size);
    }
    read_at(z, cells, x, a).ok_or(ReadRefusal::BadCell(x))
}
