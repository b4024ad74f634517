// Packing: every state and every written row gets its place in the cells, in document 01's order.
#![tactic(auto)]

mod bench;
mod gather;
mod job;
pub mod pack;
mod place;
mod row;
mod search;
mod turn;

ghost use Rattle.std.specs.Prelude.{◌≡◌};
ghost use Rattle.packing.specs.declared.PackRefusal.TheVariants.{Judged};

use tables::Refusal;

// The two kinds of rows. The definitions have theirs from `cells`, of which the theorems on reads speak; `as_kind` joins the two.
#[derive(Clone, Copy, Debug, PartialEq, Eq)]
pub enum Kind {
    Action,
    Goto,
}

// A written entry; a blank one stands where the row has none.
#[derive(Clone, Copy, Debug, PartialEq, Eq)]
pub enum Written {
    Blank,
    Shift(u32),
    Rule(u32),
}

// What is done with a row: it is placed, it takes the base of an earlier state, or nothing is done.
#[derive(Clone, Copy, Debug, PartialEq, Eq)]
pub enum Plan {
    Search,
    Share(u32),
    Skip,
}

// The cells do not hold what is to be placed.
#[derive(Clone, Copy, Debug, PartialEq, Eq)]
pub struct NoRoom;

// Why nothing is packed: what the judgement refuses, or that there is no room.
#[derive(Clone, Copy, Debug, PartialEq, Eq)]
pub enum PackRefusal {
    Judged(Refusal),
    NoRoom,
}

impl From<Refusal> for PackRefusal {
    ghost from_gives = { λ r e. e ≡ Judged r };

    fn from(r: Refusal) -> PackRefusal {
        PackRefusal::Judged(r)
    }
}
