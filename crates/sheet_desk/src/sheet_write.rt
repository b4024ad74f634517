// The sheet's writer, exported. C lends numbers and slices, so they stand apart here.
ghost use Rattle.std.specs.Prelude.{◌≡◌};
ghost use Rattle.sheets.specs.Outcome.{sheet_write};
ghost use Rattle.answers.specs.Sheet.{written as written_by, written_of};

use answers::Answer;
use tables::{Signing, Sizes};

// Writes the sheet of a signing into the lent buffer: OK with its length, SIZE, SIGN or TEXT.
#[unsafe(no_mangle)]
pub extern "C" fn slettrein_sheet_write(
    terminals: u32,
    symbols: u32,
    rules: u32,
    states: u32,
    srule: &[u32],
    sgoto: &[u32],
    buffer: &mut [u8],
) -> Answer
    ensures { written_by result buffer.new ≡ written_of (sheet_write (record { terminals = terminals; symbols = symbols; rules = rules }) states srule.now sgoto.now buffer.old) }
{
    let sizes = Sizes {
        terminals,
        symbols,
        rules,
    };
    let signing = Signing {
        rules: srule,
        targets: sgoto,
    };
    texts::write::write_sheet(sizes, states, signing, buffer).into()
}
