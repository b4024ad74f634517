// A thin reader over the functions that take a text and a place plainly.
ghost use Rattle.std.specs.Prelude.{◌≡◌};
ghost use Rattle.sheets.specs.Lines.{entry_at};
ghost use Rattle.sheets.specs.Walk.{key_of};

use sheet_lines::entry::keyed_at;
use sheets::{Key, Value};

// A sheet reader: the lent text and its place in it.
#[derive(Clone, Copy)]
pub struct SheetReader<'a> {
    pub text: &'a [u8],
    pub at: usize,
}

impl<'a> SheetReader<'a> {
    // A reader at the first byte of the text.
    pub fn new(text: &'a [u8]) -> SheetReader<'a>
        ensures { (result.text ≡ text.entry) × (result.at ≡ 0) }
    {
        SheetReader { text, at: 0 }
    }

    // The reader's place in its text.
    pub fn place(self) -> usize
        ensures { result ≡ self.entry.at }
    {
        self.at
    }

    // The reader at another place of its text.
    pub fn moved(self, at: usize) -> SheetReader<'a>
        ensures { (result.text ≡ self.entry.text) × (result.at ≡ at) }
    {
        SheetReader { at, ..self }
    }

    // The value on the line of this key at the reader's place, and the place of the next line.
    pub fn value(self, key: Key) -> Option<Value>
        ensures { result ≡ entry_at self.entry.text.now self.entry.at (key_of key) }
    {
        keyed_at(self.text, self.at, key)
    }
}
