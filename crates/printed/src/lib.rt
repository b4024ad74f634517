// What packsheet prints for a sheet: the small board packed with its signing, or a refusal.
#![tactic(auto)]

ghost use Rattle.std.specs.Prelude.{◌≡◌};
ghost use Rattle.sheets.specs.Emit.{Emitted};
ghost use Rattle.packing.specs.Written.{bench};
ghost use Rattle.packing.specs.Packing.{said_of, packing_result};
ghost use Rattle.printed.specs.Printed.{board_packed, signed_text, board_read, read_text, printed};

use answers::Answer;
use packing::PackRefusal;
use packing::pack::pack;
use sheet_reader::read::read_sheet;
use tables::Signing;
use texts::print::{print_cells, print_refusal};

// Packs the small board with this signing into the lent arrays.
#[tactic(auto, unfolding(crate::specs::Printed::board_packed))]
fn pack_board(
    signing: Signing,
    base: &mut [i32],
    check: &mut [i32],
    marks: &mut [u32],
    place: &mut [u32],
) -> Result<usize, PackRefusal>
    ensures { packing_result (said_of result) (bench base.new check.new marks.new place.new) ≡ board_packed signing.entry.rules.now signing.entry.targets.now (bench base.old check.old marks.old place.old) }
{
    let b = board::small();
    pack(b.grammar(), b.table(), signing, base, check, marks, place)
}

// Prints what packing the small board with this signing gives.
fn print_signed(signing: Signing, out: &mut [u8]) -> usize
    ensures { Emitted out.old 0 (signed_text signing.entry.rules.now signing.entry.targets.now) result out.new }
{
    // No heap: the 64 cells of document 01's board stand in the frame.
    let mut base = [0; 64];
    let mut check = [0; 64];
    let mut marks = [0; 64];
    let mut place = [0; 7];
    let said = pack_board(signing, &mut base, &mut check, &mut marks, &mut place);
    match said {
        Ok(count) => print_cells(&base, &check, count as u32, out),
        Err(e) => print_refusal(Answer::from(e).number, out),
    }
}

// Prints what a sheet of the small board gives.
fn print_read(text: &[u8], out: &mut [u8]) -> usize
    ensures { Emitted out.old 0 (read_text (board_read text.now)) result out.new }
{
    let mut rules = [0; 7];
    let mut targets = [0; 3];
    let b = board::small();
    let said = read_sheet(b.sizes, b.states, text, &mut rules, &mut targets);
    let signing = Signing {
        rules: &rules,
        targets: &targets,
    };
    match said {
        Ok(_) => print_signed(signing, out),
        Err(e) => print_refusal(Answer::from(e).number, out),
    }
}

// Puts what packsheet prints for the text at the front of `out`, and gives its length; what would fall outside is left out.
pub fn print_sheet(text: &[u8], out: &mut [u8]) -> usize
    ensures { Emitted out.old 0 (printed text.now) result out.new }
{
    if text.len() <= 65536 {
        print_read(text, out)
    } else {
        // TEXT, by the number that `refusal_text` takes.
        print_refusal(16, out)
    }
}
