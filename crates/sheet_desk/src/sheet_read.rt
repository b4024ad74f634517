// The sheet's reader, exported. C lends numbers and slices, so they stand apart here.
ghost use Rattle.std.specs.Prelude.{◌≡◌};
ghost use Rattle.sheets.specs.Outcome.{sheet_read};
ghost use Rattle.answers.specs.Sheet.{read as read_by, read_of};

use answers::Answer;
use tables::Sizes;

// Reads a sheet into the lent signing: OK with the length of the text, SIZE, LINE or SIGN.
#[unsafe(no_mangle)]
pub extern "C" fn slettrein_sheet_read(
    terminals: u32,
    symbols: u32,
    rules: u32,
    states: u32,
    text: &[u8],
    srule: &mut [u32],
    sgoto: &mut [u32],
) -> Answer
    ensures { read_by result srule.new sgoto.new ≡ read_of (sheet_read (record { terminals = terminals; symbols = symbols; rules = rules }) states text.now srule.old sgoto.old) }
{
    let sizes = Sizes {
        terminals,
        symbols,
        rules,
    };
    sheet_reader::read::read_sheet(sizes, states, text, srule, sgoto).into()
}
