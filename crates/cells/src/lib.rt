// The cells, and how they are read.
#![tactic(auto)]

pub mod ask;
pub mod reader;
pub mod reading;
pub mod size;

// What a read that is asked for by itself refuses: a number or a length, or a cell that is malformed.
#[derive(Clone, Copy, Debug, PartialEq, Eq)]
pub enum ReadRefusal {
    Size,
    BadCell(usize),
}
