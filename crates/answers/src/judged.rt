// What a judgement says, as numbers.
ghost use Rattle.std.specs.Prelude.{◌≡◌};
ghost use Rattle.tables.specs.Judgement.{refused};
ghost use Rattle.answers.specs.Answer.{answer_of};

use crate::Answer;
use crate::words::{bare, with_one, with_two};
use tables::Refusal;

// The number and the values of each refusal.
impl From<Refusal> for Answer {
    ghost from_gives = { λ e a. a ≡ answer_of (refused e) };

    fn from(e: Refusal) -> Answer {
        match e {
            Refusal::Size => bare(1),
            Refusal::Grammar(r) => with_one(2, r),
            Refusal::Entry(i) => with_one(3, i),
            Refusal::State(s) => with_two(4, 0, s),
            Refusal::Nonterminal(x) => with_two(4, 1, x),
        }
    }
}
