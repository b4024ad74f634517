// The signing sheet: the one text of a signing, and what reading and writing it say.
#![tactic(auto)]

ghost use Rattle.std.specs.Prelude.{◌≡◌};
ghost use Rattle.sheets.specs.declared.ReadRefusal.TheVariants as read_refusal;
ghost use Rattle.sheets.specs.declared.WriteRefusal.TheVariants as write_refusal;

use tables::Refusal;

// What stands after `=`: 0 for `none`, as in a signing that C lends, else the number; with the place after it.
#[derive(Clone, Copy, Debug, PartialEq, Eq)]
pub struct Value {
    pub number: u32,
    pub next: usize,
}

// The first line that is not as it must be.
#[derive(Clone, Copy, Debug, PartialEq, Eq)]
pub struct BadLine(pub usize);

// The key of an entry's line: `state.` and the state, or `goto.` and the nonterminal.
#[derive(Clone, Copy, Debug, PartialEq, Eq)]
pub enum Key {
    State(u32),
    Goto(u32),
}

// What the reader refuses: sizes or a signing, or the first line that is not as it must be.
#[derive(Clone, Copy, Debug, PartialEq, Eq)]
pub enum ReadRefusal {
    Judged(Refusal),
    Line(usize),
}

impl From<Refusal> for ReadRefusal {
    ghost from_gives = { λ r e. e ≡ read_refusal.Judged r };

    fn from(r: Refusal) -> ReadRefusal {
        ReadRefusal::Judged(r)
    }
}

impl From<BadLine> for ReadRefusal {
    ghost from_gives = { λ b e. e ≡ read_refusal.Line b.0 };

    fn from(b: BadLine) -> ReadRefusal {
        ReadRefusal::Line(b.0)
    }
}

// What the writer refuses: sizes or a signing, or a buffer that is too short for the text.
#[derive(Clone, Copy, Debug, PartialEq, Eq)]
pub enum WriteRefusal {
    Judged(Refusal),
    Text,
}

impl From<Refusal> for WriteRefusal {
    ghost from_gives = { λ r e. e ≡ write_refusal.Judged r };

    fn from(r: Refusal) -> WriteRefusal {
        WriteRefusal::Judged(r)
    }
}
