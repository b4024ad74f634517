// What every parse has, whatever it reads from: tokens and a limit, the current token, a refused move.
ghost use Rattle.std.specs.Prelude.{◌≡◌};
ghost use Rattle.machine.specs.Arrays.{refused_by};
ghost use Rattle.machine.specs.Machine.{current};
ghost use Rattle.machine.specs.Outcome.{job_fits};

use crate::{Ran, State, Stop};
use std::ops::ControlFlow;

// Tokens and limit are in their bounds.
#[tactic(auto, using(std::proofs::lemmas::Bool::Decides::nat_tests), unfolding(crate::specs::Outcome::job_fits))]
pub fn job_fits(tokens: &[u32], limit: u32) -> bool
    ensures { result ≡ job_fits tokens.now limit }
{
    tokens.len() <= 65535 && limit <= 1000000
}

// The current token, 0 at the end; none where it is not 1..T-1.
#[tactic(auto, using(std::proofs::lemmas::Bool::Decides::nat_tests), unfolding(crate::specs::Machine::current))]
pub fn token_at(tokens: &[u32], terminals: u32, place: usize) -> Option<u32>
    ensures { result ≡ current terminals tokens.now place }
{
    if place >= tokens.len() {
        return Some(0);
    }
    match tokens[place] {
        0 => None,
        a if a < terminals => Some(a),
        _ => None,
    }
}

// A refused move is not counted and adds nothing.
#[tactic(auto, unfolding(crate::specs::Arrays::refused_by))]
pub fn refused(s: State, answer: Result<usize, Stop>) -> ControlFlow<Ran, State>
    ensures { result ≡ refused_by s answer }
{
    ControlFlow::Break(Ran {
        answer,
        count: s.count,
        moves: s.moves,
    })
}
