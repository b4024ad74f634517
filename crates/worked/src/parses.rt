// P1 to P8 and P12: tokens parsed with the packed cells, then with the table.
ghost use Rattle.std.specs.Prelude.{◌≤◌};

use crate::boards::{blanked, unsigned};
use crate::say;
use board::Board;
use cells::reading::Cells;
use machine::Ended;
use machine::plain::plain_parse;
use packing::pack::pack;
use parser::parse::parse;
use std::io;
use std::io::Write;
use tables::Refusal;

// A board, tokens for it and a move limit.
#[derive(Clone, Copy)]
struct Case<'a> {
    board: Board,
    tokens: &'a [u32],
    limit: u32,
}

impl<'a> Case<'a> {
    // A parse with the cells that packing leaves of 64.
    fn with_cells(self, stack: &mut [u32], list: &mut [u32]) -> Result<Ended, Refusal> {
        let b = self.board;
        let mut base = [7; 64];
        let mut check = [7; 64];
        let _ = pack(
            b.grammar(),
            b.table(),
            b.signing(),
            &mut base,
            &mut check,
            &mut [7; 64],
            &mut [7; 7],
        );
        let cells = Cells {
            base: &base,
            check: &check,
        };
        parse(b.grammar(), cells, self.tokens, self.limit, stack, list)
    }

    // A parse with the filled table.
    fn with_table(self, stack: &mut [u32], list: &mut [u32]) -> Result<Ended, Refusal> {
        let b = self.board;
        plain_parse(
            b.grammar(),
            b.table(),
            b.signing(),
            self.tokens,
            self.limit,
            stack,
            list,
        )
    }
}

// What a parse says and leaves in the list.
fn line<W: Write>(
    out: &mut W,
    name: &str,
    machine: &str,
    p: Result<Ended, Refusal>,
    list: &[u32],
) -> io::Result<()> {
    write!(out, "{name}{machine}")?;
    say::parsed(out, p.into())?;
    say::list(out, " list", list)?;
    writeln!(out)
}

// A parse with the cells and one with the table, each with a stack and a list of these lengths, in which every element is written by the parse alone.
fn both<W: Write>(
    out: &mut W,
    name: &str,
    case: Case,
    depth: usize,
    length: usize,
) -> io::Result<()>
    requires { (depth ≤ 8) × (length ≤ 8) }
{
    let mut list = [7; 8];
    let p = case.with_cells(&mut [7; 8][..depth], &mut list[..length]);
    line(out, name, "-cells", p, &list[..length])?;
    let mut list = [7; 8];
    let p = case.with_table(&mut [7; 8][..depth], &mut list[..length]);
    line(out, name, "-plain", p, &list[..length])
}

// The small board and these tokens.
fn small<'a>(tokens: &'a [u32], limit: u32) -> Case<'a> {
    Case {
        board: board::small(),
        tokens,
        limit,
    }
}

// Tokens alone.
pub(crate) fn p1_to_p4<W: Write>(out: &mut W) -> io::Result<()> {
    both(out, "P1", small(&[2, 1, 1], 1000), 8, 8)?;
    both(out, "P2", small(&[1], 1000), 8, 8)?;
    both(out, "P3", small(&[], 1000), 8, 8)?;
    both(out, "P4", small(&[2], 1000), 8, 8)
}

// A move limit, a stack and a list that are too small or just enough; a token that is no terminal.
pub(crate) fn p5_to_p8<W: Write>(out: &mut W) -> io::Result<()> {
    both(out, "P5a", small(&[2, 1, 1], 7), 8, 8)?;
    both(out, "P5b", small(&[2, 1, 1], 8), 8, 8)?;
    both(out, "P6a", small(&[2, 1, 1], 1000), 2, 8)?;
    both(out, "P6b", small(&[2, 1, 1], 1000), 3, 8)?;
    both(out, "P7", small(&[2, 1, 1], 1000), 8, 4)?;
    both(out, "P8", small(&[3], 1000), 8, 8)
}

// The entry for state 3 and b blanked: unsigned, and signed.
pub(crate) fn p12<W: Write>(out: &mut W) -> io::Result<()> {
    let board = blanked(board::small());
    let case = Case {
        board,
        tokens: &[1, 2, 1],
        limit: 1000,
    };
    let board = unsigned(board);
    both(out, "P12-unsigned", Case { board, ..case }, 8, 8)?;
    both(out, "P12-signed", case, 8, 8)
}
