// Lines of a sheet, looked for and read at a place of a text.
// Text and place stay two parameters: document 01 asks for functions that take both plainly, and for `thin_reader` over them.
#![tactic(auto)]

pub mod entry;
pub mod skip;
