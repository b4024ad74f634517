// What a parse says, as numbers.
ghost use Rattle.std.specs.Prelude.{◌≡◌};
ghost use Rattle.machine.specs.Outcome.{said_of, moves_of};
ghost use Rattle.machine.specs.Outcome.{answer_of as end_of};
ghost use Rattle.answers.specs.Answer.{answer_of, counted};

use crate::words::{with_one, with_two};
use crate::{Answer, ParseAnswer};
use machine::{Ended, Stop};
use tables::Refusal;

// What an end says after this many moves.
fn ended(answer: Result<usize, Stop>, moves: u32) -> Answer
    ensures { result ≡ answer_of (end_of answer moves) }
{
    match answer {
        Ok(n) => with_two(0, n, moves as usize),
        Err(Stop::Token(i)) => with_one(7, i),
        Err(Stop::Syntax(i)) => with_one(8, i),
        Err(Stop::Underflow(i, r)) => with_two(9, i, r as usize),
        Err(Stop::NoGoto(i, r)) => with_two(10, i, r as usize),
        Err(Stop::Stack(i)) => with_one(11, i),
        Err(Stop::Output(i)) => with_one(12, i),
        Err(Stop::Moves(i)) => with_one(13, i),
        Err(Stop::BadCell(x)) => with_one(14, x as usize),
    }
}

// An answer with the count of moves.
fn with_moves(a: Answer, moves: u32) -> ParseAnswer
    ensures { result ≡ counted a moves }
{
    ParseAnswer {
        number: a.number,
        count: a.count,
        first: a.first,
        second: a.second,
        moves,
    }
}

// What a parse says, with its count of moves.
impl From<Result<Ended, Refusal>> for ParseAnswer {
    ghost from_gives = { λ p a. a ≡ counted (answer_of (said_of p)) (moves_of p) };

    fn from(p: Result<Ended, Refusal>) -> ParseAnswer {
        match p {
            Ok(e) => with_moves(ended(e.answer, e.moves), e.moves),
            Err(e) => with_moves(e.into(), 0),
        }
    }
}
