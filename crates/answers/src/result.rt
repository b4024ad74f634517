// What an operation says, as numbers, whatever it refuses.
ghost use Rattle.std.specs.Prelude.{◌≡◌, [], ◌∷◌, IfOk, IfErr};
ghost use Rattle.tables.specs.Said.{OK};
ghost use Rattle.answers.specs.Answer.{answer_of};

use crate::Answer;
use crate::words::{bare, with_one};

// OK without a value, or the number and the values of the refusal.
impl<E: Into<Answer>> From<Result<(), E>> for Answer {
    ghost from_gives = { λ r a. IfOk r (λ _. a ≡ answer_of (OK [])) × IfErr r (λ e. E.Into.converts e a) };

    fn from(r: Result<(), E>) -> Answer {
        match r {
            Ok(()) => bare(0),
            Err(e) => e.into(),
        }
    }
}

// OK with a count or a length, or the number and the values of the refusal.
impl<E: Into<Answer>> From<Result<usize, E>> for Answer {
    ghost from_gives = { λ r a. IfOk r (λ n. a ≡ answer_of (OK (n ∷ []))) × IfErr r (λ e. E.Into.converts e a) };

    fn from(r: Result<usize, E>) -> Answer {
        match r {
            Ok(n) => with_one(0, n),
            Err(e) => e.into(),
        }
    }
}
