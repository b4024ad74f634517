// packsheet: reads a signing sheet of the small board on standard input, packs the board into 64 cells with it, and prints them; or prints a refusal.
#![tactic(auto)]

ghost use Rattle.std.specs.Prelude.{◌≤◌, ◌<◌, length, take, IfOk, OnOk, IfSome};
ghost use Rattle.std.specs.Io.KnownBytes.{Consumes, IsAtEnd, Appends};
ghost use Rattle.printed.specs.Printed.{printed};

use printed::print_sheet;
use std::io;
use std::io::{ErrorKind, Read, Write};

// Reads until the buffer is full or the input ends, and gives the count of bytes read; a read that is interrupted is made again.
// By a loop, since std reads to the end of an input into a Vec alone, and there is no heap here.
fn read_full<R: Read>(input: &mut R, buffer: &mut [u8]) -> io::Result<usize>
    ensures within { IfOk result (λ n. n ≤ length buffer.new) }
    ensures bytes { IfOk result (λ n. Consumes (R.remaining input.old) (R.remaining input.new) (take n buffer.new)) }
    ensures end { IfOk result (λ n. n < length buffer.new → IsAtEnd (R.remaining input.new)) }
{
    let mut filled = 0;
    // Counted, since a loop that may never end is none of this repository's.
    for _ in 0..u64::MAX {
        match input.read(&mut buffer[filled..]) {
            Ok(0) => return Ok(filled),
            Ok(n) => filled += n,
            Err(e) if e.kind() == ErrorKind::Interrupted => continue,
            Err(e) => return Err(e),
        }
    }
    Err(io::Error::from(ErrorKind::Interrupted))
}

// Reads a sheet, and writes what is printed for it. One byte above the most is enough to see that there are too many.
fn run<R: Read, W: Write>(input: &mut R, output: &mut W) -> io::Result<()>
    ensures { OnOk result (IfSome (R.remaining input.old) (λ text. Appends (W.contents output.old) (W.contents output.new) (printed text))) }
{
    // No heap: a text above the most is seen by its one byte more.
    let mut text = [0u8; 65537];
    let mut out = [0u8; 2048];
    let read = read_full(input, &mut text)?;
    let size = print_sheet(&text[..read], &mut out);
    output.write_all(&out[..size])
}

fn main(rt: HostRuntime) -> io::Result<()> {
    run(&mut rt.reader(), &mut io::writer(&rt))
}
