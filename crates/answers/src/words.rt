// Answers made of a number and its values.
ghost use Rattle.std.specs.Prelude.{◌≡◌, [], ◌∷◌};
ghost use Rattle.tables.specs.Said.{answer};
ghost use Rattle.answers.specs.Answer.{answer_of};

use crate::Answer;

// An answer with no value.
pub(crate) fn bare(number: u32) -> Answer
    ensures { result ≡ answer_of (answer number []) }
{
    Answer {
        number,
        count: 0,
        first: 0,
        second: 0,
    }
}

// An answer with one value.
pub(crate) fn with_one(number: u32, first: usize) -> Answer
    ensures { result ≡ answer_of (answer number (first ∷ [])) }
{
    Answer {
        number,
        count: 1,
        first,
        second: 0,
    }
}

// An answer with two values.
pub(crate) fn with_two(number: u32, first: usize, second: usize) -> Answer
    ensures { result ≡ answer_of (answer number (first ∷ second ∷ [])) }
{
    Answer {
        number,
        count: 2,
        first,
        second,
    }
}
