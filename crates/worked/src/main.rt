// P1 to P12 of document 01, run through the product's functions. A line for each case, for a parse one with the cells and one with the table: the name, the number of the answer, its values, and what is left.
#![tactic(auto)]

mod boards;
mod checks;
mod packs;
mod parses;
mod say;

use std::io;

fn main(rt: HostRuntime) -> io::Result<()> {
    let mut out = io::writer(&rt);
    parses::p1_to_p4(&mut out)?;
    parses::p5_to_p8(&mut out)?;
    packs::p9(&mut out)?;
    checks::p10_and_p11(&mut out)?;
    parses::p12(&mut out)
}
