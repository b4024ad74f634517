// The machine of 'One move': what a parse says and leaves, over any way of reading and over the filled table.
#![tactic(auto)]

mod filled;
pub mod job;
mod moves;
pub mod plain;
pub mod task;

// Why a parse ends without accepting, past the numbers 1 to 4, and with what. The count of moves comes with each.
#[derive(Clone, Copy, Debug, PartialEq, Eq)]
pub enum Stop {
    Token(usize),
    Syntax(usize),
    Underflow(usize, u32),
    NoGoto(usize, u32),
    Stack(usize),
    Output(usize),
    Moves(usize),
    BadCell(u32),
}

// Where a parse stands: how many states are on the stack, the place in the tokens, the reductions in the list, the state on top of the stack, the moves made.
// Numbers of one size stand together: with the u32s apart, a move takes 97 instructions in place of 75, since each state is packed anew.
#[derive(Clone, Copy, Debug, PartialEq, Eq)]
pub struct State {
    pub depth: usize,
    pub place: usize,
    pub count: usize,
    pub top: u32,
    pub moves: u32,
}

// How a run ended: the reductions of what was accepted or why it stopped, the reductions in the list, the moves made.
#[derive(Clone, Copy, Debug, PartialEq, Eq)]
pub struct Ran {
    pub answer: Result<usize, Stop>,
    pub count: usize,
    pub moves: u32,
}

// How a parse ended, past the numbers 1 to 4: the same without the list's count.
#[derive(Clone, Copy, Debug, PartialEq, Eq)]
pub struct Ended {
    pub answer: Result<usize, Stop>,
    pub moves: u32,
}
