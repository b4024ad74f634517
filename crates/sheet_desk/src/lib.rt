// What a curator's tools call from Rust: the signing sheet, and what packsheet prints.
#![tactic(auto)]

mod packsheet;
mod sheet_read;
mod sheet_write;
