// How an entry of the table is read, unsigned and filled. A read is lent the one array of table or signing that it looks at.
#![tactic(auto)]

ghost use Rattle.std.specs.Prelude.{◌≡◌, ◌-◌};
ghost use Rattle.tables.specs.Entry.{action_at, goto_at};
ghost use Rattle.tables.specs.Filled.{signed_action, signed_goto, filled_action_at, filled_goto_at};

use number::Signed;
use tables::{Action, Sizes};

// The unsigned table's entry for state s and terminal a.
#[tactic(auto, unfolding(tables::specs::Entry::entry_at, tables::specs::Entry::action_at))]
pub fn action_at(z: Sizes, table: &[i32], s: u32, a: u32) -> Action
    ensures { result ≡ action_at z table.now s a }
{
    match number::at_i32(table, s as usize * z.symbols as usize + a as usize) {
        Signed::Plus(0) => Action::Blank,
        Signed::Plus(t) => Action::Shift(t),
        Signed::Minus(1) => Action::Accept,
        Signed::Minus(r) => Action::Reduce(r),
    }
}

// The unsigned table's entry for state s and nonterminal x.
#[tactic(auto, unfolding(tables::specs::Entry::entry_at, tables::specs::Entry::goto_at))]
pub fn goto_at(z: Sizes, table: &[i32], s: u32, x: u32) -> Option<u32>
    ensures { result ≡ goto_at z table.now s x }
{
    match number::at_i32(table, s as usize * z.symbols as usize + x as usize) {
        Signed::Plus(0) => None,
        Signed::Plus(t) => Some(t),
        Signed::Minus(_) => None,
    }
}

// What a signed rule answers for a blank.
#[tactic(auto, unfolding(tables::specs::Filled::signed_action))]
fn signed_action(r: u32) -> Action
    ensures { result ≡ signed_action r }
{
    match r {
        0 => Action::Blank,
        r => Action::Reduce(r),
    }
}

// What a signed state answers for a blank.
#[tactic(auto, unfolding(tables::specs::Filled::signed_goto))]
fn signed_goto(t: u32) -> Option<u32>
    ensures { result ≡ signed_goto t }
{
    match t {
        0 => None,
        t => Some(t),
    }
}

// The filled table's entry for state s and terminal a.
#[tactic(auto, unfolding(tables::specs::Filled::filled_action_at))]
pub fn filled_action_at(z: Sizes, table: &[i32], srule: &[u32], s: u32, a: u32) -> Action
    ensures { result ≡ filled_action_at z table.now srule.now s a }
{
    match action_at(z, table, s, a) {
        Action::Blank => signed_action(number::at(srule, s as usize, 0)),
        written => written,
    }
}

// The place of nonterminal x in the targets of a signing; one below T has that of T.
fn place_of(z: Sizes, x: u32) -> usize
    ensures { result ≡ x - z.terminals }
{
    x.saturating_sub(z.terminals) as usize
}

// The filled table's entry for state s and nonterminal x.
#[tactic(auto, unfolding(tables::specs::Filled::filled_goto_at))]
pub fn filled_goto_at(z: Sizes, table: &[i32], sgoto: &[u32], s: u32, x: u32) -> Option<u32>
    ensures { result ≡ filled_goto_at z table.now sgoto.now s x }
{
    match goto_at(z, table, s, x) {
        None => signed_goto(number::at(sgoto, place_of(z, x), 0)),
        Some(t) => Some(t),
    }
}
