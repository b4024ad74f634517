// Packing, exported. C lends numbers and slices, so they stand apart here.
ghost use Rattle.std.specs.Prelude.{◌≡◌};
ghost use Rattle.packing.specs.Packing.{packed as packing_of};
ghost use Rattle.packing.specs.Written.{bench};
ghost use Rattle.answers.specs.Told.{told, told_of};

use answers::Answer;
use tables::{Grammar, Signing, Sizes, Table};

// Packs grammar, table and signing into the lent cells: OK with the count, or a refusal 1 to 5.
#[unsafe(no_mangle)]
pub extern "C" fn slettrein_pack(
    terminals: u32,
    symbols: u32,
    rules: u32,
    states: u32,
    left: &[u32],
    lens: &[u32],
    rights: &[u32],
    table: &[i32],
    srule: &[u32],
    sgoto: &[u32],
    base: &mut [i32],
    check: &mut [i32],
    marks: &mut [u32],
    place: &mut [u32],
) -> Answer
    ensures { told result (bench base.new check.new marks.new place.new) ≡ told_of (packing_of (record { terminals = terminals; symbols = symbols; rules = rules }) states left.now lens.now rights.now table.now srule.now sgoto.now (bench base.old check.old marks.old place.old)) }
{
    let sizes = Sizes {
        terminals,
        symbols,
        rules,
    };
    let grammar = Grammar {
        sizes,
        left,
        lens,
        rights,
    };
    let table = Table {
        states,
        entries: table,
    };
    let signing = Signing {
        rules: srule,
        targets: sgoto,
    };
    packing::pack::pack(grammar, table, signing, base, check, marks, place).into()
}
