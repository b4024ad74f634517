// The moves that need nothing but the stack or the list.
ghost use Rattle.std.specs.Prelude.{◌≡◌, List, ℕ, ◌<◌};
ghost use Rattle.machine.specs.Arrays.{Ready, after, shift_at, accept_at};

use crate::job::refused;
use crate::{Ran, State, Stop};
use std::ops::ControlFlow;

// Shift: stack full, else push and go on.
#[tactic(auto, using(std::proofs::lemmas::Bool::Decides::nat_tests), unfolding(crate::specs::Arrays::shift_at, crate::specs::Arrays::shifted))]
pub(crate) fn shift(stack: &mut [u32], s: State, t: u32) -> ControlFlow<Ran, State>
    requires { Ready s stack.old }
    ensures { (list : List ℕ) → after result stack.new list ≡ shift_at s t stack.old list }
{
    let depth = s.depth;
    if depth < stack.len() {
        stack[depth] = t;
        ControlFlow::Continue(State {
            top: t,
            depth: depth + 1,
            place: s.place + 1,
            count: s.count,
            moves: s.moves + 1,
        })
    } else {
        refused(s, Err(Stop::Stack(s.place)))
    }
}

// Accept: list full, else rule 1 is written.
#[tactic(auto, using(std::proofs::lemmas::Bool::Decides::nat_tests), unfolding(crate::specs::Arrays::accept_at, crate::specs::Arrays::accepted_by))]
pub(crate) fn accept(list: &mut [u32], s: State) -> ControlFlow<Ran, State>
    requires { s.moves < 1000000 }
    ensures { (stack : List ℕ) → after result stack list.new ≡ accept_at s stack list.old }
{
    let count = s.count;
    if count < list.len() {
        list[count] = 1;
        ControlFlow::Break(Ran {
            answer: Ok(count + 1),
            count: count + 1,
            moves: s.moves + 1,
        })
    } else {
        refused(s, Err(Stop::Output(s.place)))
    }
}
