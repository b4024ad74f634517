// The reader of the signing sheet.
#![tactic(auto)]

pub mod read;
