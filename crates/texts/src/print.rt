// What packsheet prints, as texts in a buffer.
ghost use Rattle.std.specs.Prelude.{◌≤◌};
ghost use Rattle.sheets.specs.Sheet.{joined};
ghost use Rattle.sheets.specs.Emit.{Emitted};
ghost use Rattle.texts.specs.Printed.{signed, cell_line, cell_lines, cells_text, refusal_text};

use crate::pen::Pen;
use number::{Signed, at_i32};

impl<'a> Pen<'a> {
    ghost use Rattle.texts.specs.Pen.{Puts, Brief};

    // Puts a number with its sign, from a place after which no count wraps.
    #[tactic(auto, using(crate::specs::Laws::Short::brief_steps))]
    fn signed(&mut self, v: Signed)
        requires { self.old.at ≤ 2000000000000 }
        ensures { Brief 11 self.old (signed v) self.new }
    {
        match v {
            Signed::Plus(n) => self.number(n),
            Signed::Minus(n) => {
                self.byte(b'-');
                self.number(n)
            }
        }
    }

    // Puts the line of cell i, at most 35 bytes, from a place after which no count wraps.
    #[tactic(auto, using(crate::specs::Laws::Short::brief_steps), unfolding(sheets::specs::Sheet::line, crate::specs::Printed::cell_line))]
    fn cell(&mut self, i: u32, base: Signed, check: Signed)
        requires { self.old.at ≤ 1000000000000 }
        ensures { Brief 35 self.old (cell_line i base check) self.new }
    {
        self.number(i);
        self.byte(b'=');
        self.signed(base);
        self.byte(b',');
        self.signed(check);
        self.byte(b'\n');
    }

    // Puts a line for each cell up to the count, after the line of the count.
    // Cells are read by their place and not zipped: `cells_text` says what a count above the lengths of the arrays gives.
    fn cells(&mut self, base: &[i32], check: &[i32], count: u32)
        requires { self.old.at ≤ 17 }
        ensures { Puts self.old (joined (cell_lines base.now check.now 0 count)) self.new }
    {
        for i in 0..count {
            let first = at_i32(base, i as usize);
            let second = at_i32(check, i as usize);
            self.cell(i, first, second);
        }
    }
}

// Puts the count and the cells up to it at the front of the buffer, and gives the length of the text; what would fall outside is left out.
pub fn print_cells(base: &[i32], check: &[i32], count: u32, buffer: &mut [u8]) -> usize
    ensures { Emitted buffer.old 0 (cells_text base.now check.now count) result buffer.new }
{
    let mut pen = Pen { buffer, at: 0 };
    pen.line(b"cells", count);
    pen.cells(base, check, count);
    pen.at
}

// Puts the line of a refusal at the front of the buffer, and gives its length; what would fall outside is left out.
#[tactic(auto, unfolding(crate::specs::Printed::refusal_text))]
pub fn print_refusal(number: u32, buffer: &mut [u8]) -> usize
    ensures { Emitted buffer.old 0 (refusal_text number) result buffer.new }
{
    let mut pen = Pen { buffer, at: 0 };
    pen.line(b"refused", number);
    pen.at
}
