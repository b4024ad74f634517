// Values, and the line of an entry, read at a place of a text.
ghost use Rattle.std.specs.Prelude.{◌≡◌, drop};
ghost use Rattle.sheets.specs.Sheet.{entry_key};
ghost use Rattle.sheets.specs.Walk.{key_of};
ghost use Rattle.sheets.specs.Lines.{digits_on, number_on, value_at, entry_at};

use crate::skip::{rest, skip, skip_key};
use sheets::{Key, Value};

// The number that the digits at `at` write, if it is not above `most`; std's `parse` takes a whole text, and these stand inside one.
#[tactic(auto, using(sheets::specs::Laws::Entry::digits_steps))]
fn digits_at(text: &[u8], at: usize, most: u32) -> Option<Value>
    ensures { result ≡ digits_on most 0 at (drop at text.now) }
{
    let mut n: u64 = 0;
    // The place after the digits is an answer too, wherever they end.
    let mut next = at;
    for c in rest(text, at) {
        if !c.is_ascii_digit() {
            break;
        }
        n = n * 10 + u64::from(*c - b'0');
        if u64::from(most) < n {
            return None;
        }
        next += 1;
    }
    Some(Value {
        number: n as u32,
        next,
    })
}

// The number 1..most without leading zeros that stands at `at`.
#[tactic(auto, using(sheets::specs::Laws::Entry::number_steps))]
fn number_at(text: &[u8], at: usize, most: u32) -> Option<Value>
    ensures { result ≡ number_on most at (drop at text.now) }
{
    match rest(text, at) {
        [b'1'..=b'9', ..] => digits_at(text, at, most),
        _ => None,
    }
}

// The value that stands at `at`: `none`, or 1..65,535.
#[tactic(auto, using(sheets::specs::Laws::Entry::entry_steps))]
fn value_at(text: &[u8], at: usize) -> Option<Value>
    ensures { result ≡ value_at text.now at }
{
    match skip(text, at, b"none") {
        Some(next) => Some(Value { number: 0, next }),
        None => number_at(text, at, 65535),
    }
}

// The value on the line of entry i at `at`, and the place of the next line.
#[tactic(auto, using(sheets::specs::Laws::Entry::entry_steps))]
pub fn entry_at(text: &[u8], at: usize, key: &[u8], i: u32) -> Option<Value>
    ensures { result ≡ entry_at text.now at (entry_key key.now i) }
{
    let place = skip_key(text, at, key, i)?;
    let value = value_at(text, place)?;
    let next = skip(text, value.next, b"\n")?;
    Some(Value { next, ..value })
}

// The value on the line of this key at `at`, and the place of the next line.
pub fn keyed_at(text: &[u8], at: usize, key: Key) -> Option<Value>
    ensures { result ≡ entry_at text.now at (key_of key) }
{
    match key {
        Key::State(s) => entry_at(text, at, b"state.", s),
        Key::Goto(x) => entry_at(text, at, b"goto.", x),
    }
}
