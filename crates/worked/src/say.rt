// A line of output, part by part. How a case is printed is this program's alone, so an answer has no `Display` of its own.
use answers::{Answer, ParseAnswer};
use std::fmt::Display;
use std::io;
use std::io::Write;

// The number of an answer and as many values as it has, each after a space.
pub(crate) fn said<W: Write>(out: &mut W, a: Answer) -> io::Result<()> {
    write!(out, " {}", a.number)?;
    if 1 <= a.count {
        write!(out, " {}", a.first)?;
    }
    if 2 <= a.count {
        write!(out, " {}", a.second)?;
    }
    Ok(())
}

// What a parse says, and its count of moves.
pub(crate) fn parsed<W: Write>(out: &mut W, a: ParseAnswer) -> io::Result<()> {
    let ParseAnswer {
        number,
        count,
        first,
        second,
        moves,
    } = a;
    said(
        out,
        Answer {
            number,
            count,
            first,
            second,
        },
    )?;
    write!(out, " moves {moves}")
}

// A name and the numbers of a list.
pub(crate) fn list<W: Write, T: Display>(out: &mut W, name: &str, numbers: &[T]) -> io::Result<()> {
    write!(out, "{name}")?;
    for n in numbers {
        write!(out, " {n}")?;
    }
    Ok(())
}
