// ENTRY: the lowest bad index of the table.
ghost use Rattle.std.specs.Prelude.{◌≡◌, true};
ghost use Rattle.tables.specs.Size.{numbers_fit, table_fits};
ghost use Rattle.tables.specs.Entry.{good_action, good_goto, lowest_entry};

use number::Signed;
use tables::{Sizes, Table};

// e may stand in a terminal column.
fn action_good(z: Sizes, states: u32, a: u32, e: Signed) -> bool
    ensures { result ≡ good_action z states a e }
{
    match e {
        Signed::Plus(t) => t == 0 || (a != 0 && t < states),
        Signed::Minus(1) => a == 0,
        Signed::Minus(r) => r <= z.rules,
    }
}

// e may stand in a nonterminal column.
fn goto_good(z: Sizes, states: u32, a: u32, e: Signed) -> bool
    ensures { result ≡ good_goto z states a e }
{
    match e {
        Signed::Plus(t) => t == 0 || (a != z.terminals && t < states),
        Signed::Minus(_) => false,
    }
}

// The lowest bad index of the table, row by row. Terminals and nonterminals have a loop each: one for both asks at each entry which kind its column is of.
pub(crate) fn lowest_entry(z: Sizes, table: Table) -> Option<usize>
    requires numbers { numbers_fit z ≡ true }
    requires table { table_fits z table.states table.entries.now ≡ true }
    ensures { result ≡ lowest_entry z table.entry.states table.entry.entries.now }
{
    for s in 0..table.states {
        let row = s as usize * z.symbols as usize;
        for a in 0..z.terminals {
            let i = row + a as usize;
            if !action_good(z, table.states, a, number::at_i32(table.entries, i)) {
                return Some(i);
            }
        }
        for a in z.terminals..z.symbols {
            let i = row + a as usize;
            if !goto_good(z, table.states, a, number::at_i32(table.entries, i)) {
                return Some(i);
            }
        }
    }
    None
}
