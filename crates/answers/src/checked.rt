// What the table check says, as numbers.
ghost use Rattle.std.specs.Prelude.{◌≡◌};
ghost use Rattle.soundness.specs.Answer.{refused};
ghost use Rattle.answers.specs.Answer.{answer_of};

use crate::Answer;
use crate::words::with_two;
use soundness::CheckRefusal;

// The number and the values of what the check refuses.
impl From<CheckRefusal> for Answer {
    ghost from_gives = { λ e a. a ≡ answer_of (refused e) };

    fn from(e: CheckRefusal) -> Answer {
        match e {
            CheckRefusal::Judged(e) => e.into(),
            CheckRefusal::Unsound(s, r) => with_two(6, s as usize, r as usize),
        }
    }
}
