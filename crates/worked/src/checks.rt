// P10 and P11: the table check of the small board with one state signed otherwise.
use crate::boards::signing;
use crate::say::said;
use board::Board;
use soundness::verdict::check;
use std::io;
use std::io::Write;

// What the check says of a board.
fn line<W: Write>(out: &mut W, name: &str, b: &Board) -> io::Result<()> {
    let c = check(b.grammar(), b.table(), b.signing());
    write!(out, "{name}")?;
    said(out, c.into())?;
    writeln!(out)
}

// State 4 signed 4; state 1 signed 2, which fills nothing; state 0 signed 4.
pub(crate) fn p10_and_p11<W: Write>(out: &mut W) -> io::Result<()> {
    line(out, "P10", &signing(4, 4))?;
    line(out, "P11a", &signing(1, 2))?;
    line(out, "P11b", &signing(0, 4))
}
