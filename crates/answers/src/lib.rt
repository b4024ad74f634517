// Answers as Rust gets them: a number and its values.
#![tactic(auto)]

mod asked;
mod checked;
mod judged;
mod packed;
mod parsed;
mod result;
mod sheet;
mod words;

// The number of an answer, how many values come with it, and the values; 0 where there is none. C takes it so, by its layout.
#[repr(C)]
#[derive(Clone, Copy, Debug, PartialEq, Eq)]
pub struct Answer {
    pub number: u32,
    pub count: u32,
    pub first: usize,
    pub second: usize,
}

// The same, with the count of moves.
#[repr(C)]
#[derive(Clone, Copy, Debug, PartialEq, Eq)]
pub struct ParseAnswer {
    pub number: u32,
    pub count: u32,
    pub first: usize,
    pub second: usize,
    pub moves: u32,
}
