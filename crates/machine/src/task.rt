// What is parsed, and its moves: 'One move', a run and a step, over any way of reading.
// Stack and list stay parameters: they are lent for a call and written, while a task is only read, so the moves are no plainer with them in it.
// `Ready` stays a clause for the same reason: it is about a state and a stack that is lent anew at each move.
ghost use Rattle.std.specs.Prelude.{◌≡◌, ◌≤◌, ◌<◌, length};
ghost use Rattle.machine.specs.Arrays.{rules_of, Ready, after, gone_at, reduce_at, move_at, done, parse_at};
ghost use Rattle.machine.specs.Outcome.{answer_of, outcome, left_by};
ghost use Rattle.machine.specs.Step.{stands, stepping, stepped_at};

use crate::job::{refused, token_at};
use crate::moves::{accept, shift};
use crate::{Ended, Ran, State, Stop};
use reads::{Read, Reading, cell_of};
use std::ops::ControlFlow;
use tables::{Grammar, Refusal};

// The tokens, by a grammar whose rules all have a left side and a length, a limit within its bound, and what is read, which reduces by these rules alone.
#[derive(Drop)]
pub struct Task<'a, R: Reading> {
    pub grammar: Grammar<'a>,
    pub tokens: &'a [u32],
    pub limit: u32,
    pub reads: R,
    pub ghost lefts: { grammar.sizes.rules ≤ length grammar.left.now },
    pub ghost lengths: { grammar.sizes.rules ≤ length grammar.lens.now },
    pub ghost ruled: { R.rules reads ≤ grammar.sizes.rules },
    pub ghost bounded: { limit ≤ 1000000 },
}

// The state stands in the stack, and has passed no more tokens than it made moves.
#[tactic(auto, using(std::proofs::lemmas::Bool::Decides::nat_tests), unfolding(crate::specs::Step::stands))]
fn is_standing(stack: &[u32], s: State) -> bool
    ensures { result ≡ stands s stack.now }
{
    s.depth <= stack.len() && s.place <= s.moves as usize
}

impl<'a, R: Reading> Task<'a, R> {
    // The goto of rule r, where d states are left: blank, malformed, no room to push, else push and go on.
    #[tactic(auto, using(std::proofs::lemmas::Bool::Decides::nat_tests), unfolding(crate::specs::Arrays::gone_at, crate::specs::Arrays::rules_of, crate::specs::Arrays::reduced))]
    fn go_on(
        &self,
        stack: &mut [u32],
        list: &mut [u32],
        s: State,
        r: u32,
        d: usize,
    ) -> ControlFlow<Ran, State>
        requires ready { Ready s stack.old }
        requires rule { (0 < r) × (r ≤ self.now.grammar.sizes.rules) }
        requires states { (0 < d) × (d ≤ s.depth) }
        requires room { s.count < length list.old }
        ensures { after result stack.new list.new ≡ gone_at (R.reads self.now.reads) (rules_of self.now.grammar.left.now self.now.grammar.lens.now) s r d stack.old list.old }
    {
        let p = stack[d - 1];
        let x = self.grammar.left[r as usize - 1];
        let read = self.reads.goto(p, x);
        if let Some(Read::Blank) = read {
            return refused(s, Err(Stop::NoGoto(s.place, r)));
        }
        let Some(Read::Shift(w)) = read else {
            return refused(s, Err(Stop::BadCell(p)));
        };
        if d < stack.len() {
            let t = cell_of(w) as u32;
            let count = s.count;
            stack[d] = t;
            list[count] = r;
            ControlFlow::Continue(State {
                top: t,
                depth: d + 1,
                place: s.place,
                count: count + 1,
                moves: s.moves + 1,
            })
        } else {
            refused(s, Err(Stop::Stack(s.place)))
        }
    }

    // Reduce by rule r: list full, fewer than length + 1 states on the stack, else the goto.
    #[tactic(auto, using(std::proofs::lemmas::Bool::Decides::nat_tests), unfolding(crate::specs::Arrays::reduce_at, crate::specs::Arrays::rules_of))]
    fn reduce(
        &self,
        stack: &mut [u32],
        list: &mut [u32],
        s: State,
        r: u32,
    ) -> ControlFlow<Ran, State>
        requires ready { Ready s stack.old }
        requires rule { (0 < r) × (r ≤ self.now.grammar.sizes.rules) }
        ensures { after result stack.new list.new ≡ reduce_at (R.reads self.now.reads) (rules_of self.now.grammar.left.now self.now.grammar.lens.now) s r stack.old list.old }
    {
        let count = s.count;
        if count < list.len() {
            let size = self.grammar.lens[r as usize - 1] as usize;
            let depth = s.depth;
            if size < depth {
                self.go_on(stack, list, s, r, depth - size)
            } else {
                refused(s, Err(Stop::Underflow(s.place, r)))
            }
        } else {
            refused(s, Err(Stop::Output(s.place)))
        }
    }

    // One move, the limit not being reached. A read is taken apart by `let .. else`, a form that the requirements name (docs/DECISIONS.md).
    #[tactic(auto, using(std::proofs::lemmas::Bool::Decides::nat_tests), unfolding(crate::specs::Arrays::move_at))]
    fn one_move(&self, stack: &mut [u32], list: &mut [u32], s: State) -> ControlFlow<Ran, State>
        requires { Ready s stack.old }
        ensures { after result stack.new list.new ≡ move_at (R.reads self.now.reads) (rules_of self.now.grammar.left.now self.now.grammar.lens.now) self.now.grammar.sizes.terminals self.now.tokens.now s stack.old list.old }
    {
        let Some(a) = token_at(self.tokens, self.grammar.sizes.terminals, s.place) else {
            return refused(s, Err(Stop::Token(s.place)));
        };
        let Some(read) = self.reads.action(s.top, a) else {
            return refused(s, Err(Stop::BadCell(s.top)));
        };
        if let Read::Reduce(r) = read {
            return self.reduce(stack, list, s, r);
        }
        if let Read::Accept = read {
            return accept(list, s);
        }
        let Read::Shift(w) = read else {
            return refused(s, Err(Stop::Syntax(s.place)));
        };
        shift(stack, s, cell_of(w) as u32)
    }

    // A run from state 0, to its end or to the limit.
    fn run(&self, stack: &mut [u32], list: &mut [u32]) -> Ran
        ensures { done result stack.new list.new ≡ parse_at (R.reads self.now.reads) (rules_of self.now.grammar.left.now self.now.grammar.lens.now) self.now.grammar.sizes.terminals self.now.tokens.now self.now.limit stack.old list.old }
    {
        if stack.len() == 0 {
            return Ran {
                answer: Err(Stop::Stack(0)),
                count: 0,
                moves: 0,
            };
        }
        stack[0] = 0;
        let mut s = State {
            top: 0,
            depth: 1,
            place: 0,
            count: 0,
            moves: 0,
        };
        for _ in 0..self.limit {
            match self.one_move(stack, list, s) {
                ControlFlow::Continue(t) => s = t,
                ControlFlow::Break(r) => return r,
            }
        }
        Ran {
            answer: Err(Stop::Moves(s.place)),
            count: s.count,
            moves: s.moves,
        }
    }

    // A run, after which the stack and the rest of the list are 0.
    pub fn run_and_clear(&self, stack: &mut [u32], list: &mut [u32]) -> Ended
        ensures { outcome (answer_of result.answer result.moves) result.moves stack.new list.new ≡ left_by (parse_at (R.reads self.now.reads) (rules_of self.now.grammar.left.now self.now.grammar.lens.now) self.now.grammar.sizes.terminals self.now.tokens.now self.now.limit stack.old list.old) }
    {
        let r = self.run(stack, list);
        number::clear_u32(stack, 0);
        number::clear_u32(list, r.count);
        Ended {
            answer: r.answer,
            moves: r.moves,
        }
    }

    // SIZE where the state does not stand in the stack, MOVES, else the move.
    #[tactic(auto, using(std::proofs::lemmas::Bool::Decides::nat_tests), unfolding(crate::specs::Step::stands, crate::specs::Step::stepped_at, crate::specs::Step::made))]
    pub fn step(
        &self,
        stack: &mut [u32],
        list: &mut [u32],
        s: State,
    ) -> Result<ControlFlow<Ran, State>, Refusal>
        ensures { stepping result stack.new list.new ≡ stepped_at (R.reads self.now.reads) (rules_of self.now.grammar.left.now self.now.grammar.lens.now) self.now.grammar.sizes.terminals self.now.tokens.now self.now.limit s stack.old list.old }
    {
        if !is_standing(stack, s) {
            return Err(Refusal::Size);
        }
        if s.moves >= self.limit {
            return Ok(refused(s, Err(Stop::Moves(s.place))));
        }
        Ok(self.one_move(stack, list, s))
    }
}
