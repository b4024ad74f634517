// Grammar, table and signing as they are lent, what is refused of them under the numbers 1 to 4, and SIZE tested.
#![tactic(auto)]

pub mod size;

// The numbers of a grammar: T, M and G.
#[derive(Clone, Copy, Debug, PartialEq, Eq)]
pub struct Sizes {
    pub terminals: u32,
    pub symbols: u32,
    pub rules: u32,
}

// A grammar: its numbers, the left side and the length of each rule, and all right sides one after the other.
#[derive(Clone, Copy)]
pub struct Grammar<'a> {
    pub sizes: Sizes,
    pub left: &'a [u32],
    pub lens: &'a [u32],
    pub rights: &'a [u32],
}

// A table: L, and its entries row by row.
#[derive(Clone, Copy)]
pub struct Table<'a> {
    pub states: u32,
    pub entries: &'a [i32],
}

// A signing: a rule for each state and a state for each nonterminal, 0 where there is none, as C lends them.
#[derive(Clone, Copy)]
pub struct Signing<'a> {
    pub rules: &'a [u32],
    pub targets: &'a [u32],
}

// What a judgement refuses: a number or a length, or the lowest rule, index, state or nonterminal that is bad.
#[derive(Clone, Copy, Debug, PartialEq, Eq)]
pub enum Refusal {
    Size,
    Grammar(usize),
    Entry(usize),
    State(usize),
    Nonterminal(usize),
}

// An entry of a terminal column.
#[derive(Clone, Copy, Debug, PartialEq, Eq)]
pub enum Action {
    Blank,
    Shift(u32),
    Reduce(u32),
    Accept,
}
