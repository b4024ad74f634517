// The small board of document 01, as code.
#![tactic(auto)]

ghost use Rattle.std.specs.Prelude.{◌≡◌};
ghost use Rattle.board.specs.Board.{small as small_board};
ghost use Rattle.board.specs.Lent.{GrammarOf, TableOf, SigningOf};

mod table;

use crate::table::TABLE;
use tables::{Grammar, Signing, Sizes, Table};

// A grammar of five rules over six symbols, a table of seven states for it, and a signing.
#[derive(Clone, Copy, Debug, PartialEq, Eq)]
pub struct Board {
    pub sizes: Sizes,
    pub states: u32,
    pub left: [u32; 5],
    pub lens: [u32; 5],
    pub rights: [u32; 7],
    pub table: [i32; 42],
    pub srule: [u32; 7],
    pub sgoto: [u32; 3],
}

impl Board {
    // Its grammar.
    pub fn grammar(&self) -> Grammar<'_>
        ensures { GrammarOf self.now result }
    {
        Grammar {
            sizes: self.sizes,
            left: &self.left,
            lens: &self.lens,
            rights: &self.rights,
        }
    }

    // Its table.
    pub fn table(&self) -> Table<'_>
        ensures { TableOf self.now result }
    {
        Table {
            states: self.states,
            entries: &self.table,
        }
    }

    // Its signing.
    pub fn signing(&self) -> Signing<'_>
        ensures { SigningOf self.now result }
    {
        Signing {
            rules: &self.srule,
            targets: &self.sgoto,
        }
    }
}

// The small board, signed as on its sheet.
pub fn small() -> Board
    ensures { result ≡ small_board }
{
    Board {
        sizes: Sizes {
            terminals: 3,
            symbols: 6,
            rules: 5,
        },
        states: 7,
        left: [3, 4, 4, 5, 5],
        lens: [1, 2, 1, 1, 2],
        rights: [4, 4, 5, 5, 1, 2, 1],
        table: TABLE,
        srule: [0, 0, 3, 4, 0, 2, 5],
        sgoto: [0, 1, 5],
    }
}
