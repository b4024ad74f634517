// One move on a state, for whoever parses a move at a time.
ghost use Rattle.std.specs.Prelude.{◌≡◌};
ghost use Rattle.machine.specs.Step.{stepping};
ghost use Rattle.parser.specs.Step.{rules_fit, step_at};

use crate::parse::packed_fits;
use cells::reader::Reader;
use cells::reading::Cells;
use machine::task::Task;
use machine::{Ran, State};
use std::ops::ControlFlow;
use tables::{Grammar, Refusal};

// The lists of left sides and of lengths have an element for each rule.
#[tactic(auto, using(std::proofs::lemmas::Bool::Decides::nat_tests), unfolding(crate::specs::Step::rules_fit))]
fn rules_fit(grammar: Grammar) -> bool
    ensures { result ≡ rules_fit grammar.entry.sizes grammar.entry.left.now grammar.entry.lens.now }
{
    let rules = grammar.sizes.rules as usize;
    grammar.left.len() == rules && grammar.lens.len() == rules
}

// SIZE, MOVES, else the move.
#[tactic(auto, using(std::proofs::lemmas::Bool::Decides::nat_tests), unfolding(crate::specs::Step::step_at, crate::specs::Step::step_fits, crate::specs::Step::rules_fit, machine::specs::Step::stepped_at))]
pub fn step(
    grammar: Grammar,
    cells: Cells,
    tokens: &[u32],
    limit: u32,
    stack: &mut [u32],
    list: &mut [u32],
    s: State,
) -> Result<ControlFlow<Ran, State>, Refusal>
    ensures { stepping result stack.new list.new ≡ step_at grammar.entry.sizes grammar.entry.left.now grammar.entry.lens.now cells.entry.base.now cells.entry.check.now tokens.now limit s stack.old list.old }
{
    if !packed_fits(cells, tokens, limit) || !rules_fit(grammar) {
        return Err(Refusal::Size);
    }
    let reads = Reader {
        rules: grammar.sizes.rules,
        cells,
    };
    let task = Task {
        grammar,
        tokens,
        limit,
        reads,
    };
    task.step(stack, list, s)
}
