// The texts that are written: the sheet, and what packsheet prints.
#![tactic(auto)]

mod pen;
pub mod print;
pub mod write;
