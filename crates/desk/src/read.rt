// A read asked for by itself, exported. C lends numbers and slices, so they stand apart here.
ghost use Rattle.std.specs.Prelude.{◌≡◌};
ghost use Rattle.cells.specs.Asked.{read_said};
ghost use Rattle.answers.specs.Answer.{answer_of};

use answers::Answer;
use cells::reading::Cells;
use tables::Sizes;

// The read of symbol a at the state at cell x: what it answers, or SIZE or BADCELL.
#[unsafe(no_mangle)]
pub extern "C" fn slettrein_read(
    terminals: u32,
    symbols: u32,
    rules: u32,
    base: &[i32],
    check: &[i32],
    x: usize,
    a: u32,
) -> Answer
    ensures { result ≡ answer_of (read_said (record { terminals = terminals; symbols = symbols; rules = rules }) base.now check.now x a) }
{
    let sizes = Sizes {
        terminals,
        symbols,
        rules,
    };
    let cells = Cells { base, check };
    cells::ask::read(sizes, cells, x, a).into()
}
