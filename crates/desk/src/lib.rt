// What a curator's tools call from Rust: judging, packing, reading, the plain machine, the house notation.
#![tactic(auto)]

mod judge;
mod notation;
mod pack;
mod plain;
mod read;
