// What a read asked for by itself says, as numbers.
ghost use Rattle.std.specs.Prelude.{◌≡◌};
ghost use Rattle.cells.specs.Asked.{answered, refused, said_of, shift_said};
ghost use Rattle.answers.specs.Answer.{answer_of};

use crate::Answer;
use crate::words::{bare, with_one, with_two};
use cells::ReadRefusal;
use reads::{Read, Way};

// The number and the values of a shift.
fn shift_said(w: Way) -> Answer
    ensures { result ≡ answer_of (shift_said w) }
{
    match w {
        Way::Direct(y) => with_two(0, 0, y),
        Way::Pointer(y) => with_two(0, 1, y),
    }
}

// The number and the values of what a read gives.
impl From<Read> for Answer {
    ghost from_gives = { λ r a. a ≡ answer_of (answered r) };

    fn from(r: Read) -> Answer {
        match r {
            Read::Shift(w) => shift_said(w),
            Read::Reduce(r) => with_two(0, 2, r as usize),
            Read::Accept => with_one(0, 3),
            Read::Blank => with_one(0, 4),
        }
    }
}

// The number and the values of what a read refuses.
impl From<ReadRefusal> for Answer {
    ghost from_gives = { λ e a. a ≡ answer_of (refused e) };

    fn from(e: ReadRefusal) -> Answer {
        match e {
            ReadRefusal::Size => bare(1),
            ReadRefusal::BadCell(x) => with_one(14, x),
        }
    }
}

// The number and the values of what a read says.
impl From<Result<Read, ReadRefusal>> for Answer {
    ghost from_gives = { λ q a. a ≡ answer_of (said_of q) };

    fn from(q: Result<Read, ReadRefusal>) -> Answer {
        match q {
            Ok(r) => r.into(),
            Err(e) => e.into(),
        }
    }
}
