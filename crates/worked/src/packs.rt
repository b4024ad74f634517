// P9: the small board packed.
use crate::say::{list, said};
use packing::pack::pack;
use std::io;
use std::io::Write;

// What packing says of the small board and leaves in the lent arrays.
fn line<W: Write>(
    out: &mut W,
    name: &str,
    base: &mut [i32],
    check: &mut [i32],
    marks: &mut [u32],
) -> io::Result<()> {
    let b = board::small();
    let mut place = [7; 7];
    let p = pack(
        b.grammar(),
        b.table(),
        b.signing(),
        base,
        check,
        marks,
        &mut place,
    );
    write!(out, "{name}")?;
    said(out, p.into())?;
    list(out, " base", base)?;
    list(out, " check", check)?;
    list(out, " marks", marks)?;
    list(out, " place", &place)?;
    writeln!(out)
}

// 20 cells are too few, 21 are enough.
pub(crate) fn p9<W: Write>(out: &mut W) -> io::Result<()> {
    line(out, "P9a", &mut [7; 20], &mut [7; 20], &mut [7; 20])?;
    line(out, "P9b", &mut [7; 21], &mut [7; 21], &mut [7; 21])
}
