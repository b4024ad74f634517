// The writer of the signing sheet. One walk over the signing puts the bytes of the text; on a buffer of no bytes it counts them.
ghost use Rattle.std.specs.Prelude.{◌≡◌, ◌+◌, ◌≤◌, length};
ghost use Rattle.sheets.specs.Sheet.{value, line, entry_key, header, entries, joined, sheet_text};
ghost use Rattle.sheets.specs.Outcome.{write_said, write_outcome, put_or, sheet_write};
ghost use Rattle.sheets.specs.Meaning.{Signed};
ghost use Rattle.sheets.specs.Emit.{Room, Emitted};

use crate::pen::Pen;
use judgement::judge::judge_signing;
use sheets::WriteRefusal;
use tables::{Signing, Sizes};

// A signing that is written: its sizes fit, and SIGN refuses nothing of it.
#[derive(Clone, Copy)]
struct Sheet<'a> {
    sizes: Sizes,
    states: u32,
    signing: Signing<'a>,
    ghost good: { Signed sizes states signing.rules.now signing.targets.now },
}

impl<'a> Pen<'a> {
    ghost use Rattle.texts.specs.Pen.{Puts};

    // Puts `none` for 0, else the number.
    #[tactic(auto, using(sheets::specs::Laws::Entries::value_steps))]
    fn value(&mut self, v: u32)
        requires { Room self.old.at (value v) }
        ensures { Puts self.old (value v) self.new }
    {
        if v == 0 {
            self.bytes(b"none")
        } else {
            self.number(v)
        }
    }

    // Puts the line of entry i, whose value is v.
    #[tactic(auto, using(crate::specs::Laws::Pen::pen_steps), unfolding(sheets::specs::Sheet::line, sheets::specs::Sheet::entry_key))]
    fn entry(&mut self, key: &[u8], i: u32, v: u32)
        requires { Room self.old.at (line (entry_key key.now i) (value v)) }
        ensures { Puts self.old (line (entry_key key.now i) (value v)) self.new }
    {
        self.bytes(key);
        self.number(i);
        self.byte(b'=');
        self.value(v);
        self.byte(b'\n');
    }

    // Puts a line for each value, from entry `first` on.
    #[tactic(auto, using(sheets::specs::Laws::Emit::entries_steps))]
    fn entries(&mut self, key: &[u8], first: u32, values: &[u32])
        requires numbers { first + length values.now ≤ 65535 }
        requires room { Room self.old.at (joined (entries key.now first values.now)) }
        ensures { Puts self.old (joined (entries key.now first values.now)) self.new }
    {
        for (i, v) in values.iter().enumerate() {
            self.entry(key, first + i as u32, *v);
        }
    }

    // Puts the header.
    #[tactic(auto, using(crate::specs::Laws::Pen::pen_steps), unfolding(sheets::specs::Sheet::joined, sheets::specs::Sheet::header))]
    fn header(&mut self, z: Sizes, states: u32)
        requires { Room self.old.at (joined (header z states)) }
        ensures { Puts self.old (joined (header z states)) self.new }
    {
        self.line(b"sheet", 1);
        self.line(b"terminals", z.terminals);
        self.line(b"symbols", z.symbols);
        self.line(b"rules", z.rules);
        self.line(b"states", states);
    }

    // Puts the text of a signing.
    #[tactic(auto, using(crate::specs::Laws::Pen::sheet_steps))]
    fn sheet(&mut self, sheet: Sheet)
        requires { Room self.old.at (sheet_text sheet.sizes sheet.states sheet.signing.rules.now sheet.signing.targets.now) }
        ensures { Puts self.old (sheet_text sheet.entry.sizes sheet.entry.states sheet.entry.signing.rules.now sheet.entry.signing.targets.now) self.new }
    {
        self.header(sheet.sizes, sheet.states);
        self.entries(b"state.", 0, sheet.signing.rules);
        let others = &sheet.signing.targets[1..];
        self.entries(b"goto.", sheet.sizes.terminals + 1, others);
    }
}

// Puts the text of a signing at the front of the buffer, and gives its length; what would fall outside is left out.
fn put_text(buffer: &mut [u8], sheet: Sheet) -> usize
    ensures { Emitted buffer.old 0 (sheet_text sheet.entry.sizes sheet.entry.states sheet.entry.signing.rules.now sheet.entry.signing.targets.now) result buffer.new }
{
    let mut pen = Pen { buffer, at: 0 };
    pen.sheet(sheet);
    pen.at
}

// Writes the text of a signing, if it is not longer than the buffer.
fn write_text(sheet: Sheet, buffer: &mut [u8]) -> Result<usize, WriteRefusal>
    ensures { write_outcome (write_said result) buffer.new ≡ put_or (sheet_text sheet.entry.sizes sheet.entry.states sheet.entry.signing.rules.now sheet.entry.signing.targets.now) buffer.old }
{
    let size = put_text(&mut [], sheet);
    if buffer.len() < size {
        return Err(WriteRefusal::Text);
    }
    Ok(put_text(buffer, sheet))
}

// Writes the sheet of a signing at the front of the buffer, whose other bytes are unchanged; SIZE, SIGN and TEXT leave all of it unchanged.
pub fn write_sheet(
    z: Sizes,
    states: u32,
    signing: Signing,
    buffer: &mut [u8],
) -> Result<usize, WriteRefusal>
    ensures { write_outcome (write_said result) buffer.new ≡ sheet_write z states signing.entry.rules.now signing.entry.targets.now buffer.old }
{
    judge_signing(z, states, signing)?;
    let sheet = Sheet {
        sizes: z,
        states,
        signing,
    };
    write_text(sheet, buffer)
}
