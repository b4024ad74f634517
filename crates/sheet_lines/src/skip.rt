// Bytes, numbers and lines that are looked for at a place of a text.
ghost use Rattle.std.specs.Prelude.{◌≡◌, ◌++◌, drop};
ghost use Rattle.sheets.specs.Decimal.{decimal};
ghost use Rattle.sheets.specs.Sheet.{equals, line, entry_key};
ghost use Rattle.sheets.specs.Walk.{past_at};

// The text from `at` on; nothing where it ends before.
pub(crate) fn rest(text: &[u8], at: usize) -> &[u8]
    ensures { result.now ≡ drop at text.now }
{
    &text[at.min(text.len())..]
}

// The place after the bytes of `key`, where they stand at `at`.
#[tactic(auto, using(sheets::specs::Laws::Place::found, sheets::specs::Laws::Place::missing))]
pub(crate) fn skip(text: &[u8], at: usize, key: &[u8]) -> Option<usize>
    ensures { result ≡ past_at text.now at key.now }
{
    if rest(text, at).starts_with(key) {
        Some(at + key.len())
    } else {
        None
    }
}

// The place after the digits of n, where they stand at `at`; nothing is printed to be compared, since there is no heap.
#[tactic(auto, using(sheets::specs::Laws::Place::past_steps))]
pub(crate) fn skip_number(text: &[u8], at: usize, n: u32) -> Option<usize>
    ensures { result ≡ past_at text.now at (decimal n) }
{
    if n < 10 {
        return skip(text, at, &[b'0' + n as u8]);
    }
    let last = skip_number(text, at, n / 10)?;
    skip(text, last, &[b'0' + (n % 10) as u8])
}

// The place after the line of `key` with the number n, where it stands at `at`.
#[tactic(auto, using(sheets::specs::Laws::Place::past_steps))]
pub fn skip_line(text: &[u8], at: usize, key: &[u8], n: u32) -> Option<usize>
    ensures { result ≡ past_at text.now at (line key.now (decimal n)) }
{
    let sign = skip(text, at, key)?;
    let number = skip(text, sign, b"=")?;
    let end = skip_number(text, number, n)?;
    skip(text, end, b"\n")
}

// The place after the key of entry i and `=`, where they stand at `at`.
#[tactic(auto, using(sheets::specs::Laws::Place::past_steps), unfolding(sheets::specs::Sheet::entry_key))]
pub(crate) fn skip_key(text: &[u8], at: usize, key: &[u8], i: u32) -> Option<usize>
    ensures { result ≡ past_at text.now at (entry_key key.now i ++ equals) }
{
    let number = skip(text, at, key)?;
    let sign = skip_number(text, number, i)?;
    skip(text, sign, b"=")
}
