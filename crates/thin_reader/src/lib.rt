// A sheet reader that holds the lent text and its place in it.
#![tactic(auto)]

pub mod reader;
