// What the match service calls from Rust: the operations on numbers and slices.
#![tactic(auto)]

mod check;
mod parse;
