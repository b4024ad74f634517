// The house variant notation: its grammar and its table, handed out as the lists that are proved sound.
#![tactic(auto)]

ghost use Rattle.std.specs.Prelude.{◌≡◌, true};
ghost use Rattle.tables.specs.Judgement.{said_of};
ghost use Rattle.house.specs.House.{house_left, house_lens, house_rights, house_table};
ghost use Rattle.house.specs.Handed.{handed, arrays_fit, handed_out};

mod arrays;
mod copy;

use crate::arrays::{LEFT, LENS, RIGHTS, TABLE};
use crate::copy::copy;
use tables::Refusal;

// Each array is as long as what it is to hold.
#[tactic(auto, using(crate::specs::Laws::Handed::lengths, std::proofs::lemmas::Bool::Decides::nat_tests), unfolding(crate::specs::Handed::arrays_fit))]
fn arrays_fit(left: &[u32], lens: &[u32], rights: &[u32], table: &[i32]) -> bool
    ensures { result ≡ arrays_fit left.now lens.now rights.now table.now }
{
    left.len() == LEFT.len()
        && lens.len() == LENS.len()
        && rights.len() == RIGHTS.len()
        && table.len() == TABLE.len()
}

// Stores the four arrays where they are lent.
#[tactic(auto, using(crate::specs::Laws::Handed::lengths, std::proofs::lemmas::Bool::Decides::nat_tests), unfolding(crate::specs::Handed::arrays_fit, crate::specs::House::house_left, crate::specs::House::house_lens, crate::specs::House::house_rights, crate::specs::House::house_table))]
fn store(left: &mut [u32], lens: &mut [u32], rights: &mut [u32], table: &mut [i32])
    requires { arrays_fit left.old lens.old rights.old table.old ≡ true }
    ensures { (left.new ≡ house_left) × (lens.new ≡ house_lens) × (rights.new ≡ house_rights) × (table.new ≡ house_table) }
{
    copy(&LEFT, left);
    copy(&LENS, lens);
    copy(&RIGHTS, rights);
    copy(&TABLE, table);
}

// Hands the four arrays out where they are lent; SIZE where a length is another.
#[tactic(auto, unfolding(crate::specs::Handed::handed_out))]
pub fn hand_out(
    left: &mut [u32],
    lens: &mut [u32],
    rights: &mut [u32],
    table: &mut [i32],
) -> Result<(), Refusal>
    ensures { handed (said_of result) left.new lens.new rights.new table.new ≡ handed_out left.old lens.old rights.old table.old }
{
    if !arrays_fit(left, lens, rights, table) {
        return Err(Refusal::Size);
    }
    store(left, lens, rights, table);
    Ok(())
}
