// The parser over packed cells: the machine of 'One move', whose reads are reads of cells.
#![tactic(auto)]

pub mod parse;
pub mod step;
