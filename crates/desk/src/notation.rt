// The house notation, exported.
ghost use Rattle.std.specs.Prelude.{◌≡◌};
ghost use Rattle.house.specs.Handed.{handed_out};
ghost use Rattle.desk.specs.House.{lent, lent_of};

use answers::Answer;

// Puts the house notation's grammar and table into the lent arrays: OK, or SIZE and nothing changed.
#[unsafe(no_mangle)]
pub extern "C" fn slettrein_house(
    left: &mut [u32],
    lens: &mut [u32],
    rights: &mut [u32],
    table: &mut [i32],
) -> Answer
    ensures { lent result left.new lens.new rights.new table.new ≡ lent_of (handed_out left.old lens.old rights.old table.old) }
{
    house::hand_out(left, lens, rights, table).into()
}
