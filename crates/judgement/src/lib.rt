// The judgement of grammar, table and signing: what is refused under the numbers 1 to 4, and in which order.
#![tactic(auto)]

mod entry;
mod grammar;
pub mod judge;
mod signing;
