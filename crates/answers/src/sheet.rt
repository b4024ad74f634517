// What reading and writing a sheet say, as numbers.
ghost use Rattle.std.specs.Prelude.{◌≡◌};
ghost use Rattle.sheets.specs.Outcome.{read_refused, write_refused};
ghost use Rattle.answers.specs.Answer.{answer_of};

use crate::Answer;
use crate::words::{bare, with_one};
use sheets::{ReadRefusal, WriteRefusal};

// The number and the values of what the reader refuses.
impl From<ReadRefusal> for Answer {
    ghost from_gives = { λ e a. a ≡ answer_of (read_refused e) };

    fn from(e: ReadRefusal) -> Answer {
        match e {
            ReadRefusal::Judged(e) => e.into(),
            ReadRefusal::Line(n) => with_one(15, n),
        }
    }
}

// The number and the values of what the writer refuses.
impl From<WriteRefusal> for Answer {
    ghost from_gives = { λ e a. a ≡ answer_of (write_refused e) };

    fn from(e: WriteRefusal) -> Answer {
        match e {
            WriteRefusal::Judged(e) => e.into(),
            WriteRefusal::Text => bare(16),
        }
    }
}
