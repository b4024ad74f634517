// A whole parse with cells for reads.
ghost use Rattle.std.specs.Prelude.{◌≡◌};
ghost use Rattle.machine.specs.Outcome.{said_of, moves_of, outcome};
ghost use Rattle.parser.specs.Outcome.{packed_fits, packed_parse};

use cells::reader::Reader;
use cells::reading::Cells;
use cells::size::cells_fit;
use judgement::judge::judge_grammar;
use machine::Ended;
use machine::job::job_fits;
use machine::task::Task;
use tables::{Grammar, Refusal};

// Base, Check, tokens and limit are in their bounds.
#[tactic(auto, unfolding(crate::specs::Outcome::packed_fits))]
pub(crate) fn packed_fits(cells: Cells, tokens: &[u32], limit: u32) -> bool
    ensures { result ≡ packed_fits cells.entry.base.now cells.entry.check.now tokens.now limit }
{
    cells_fit(cells.base, cells.check) && job_fits(tokens, limit)
}

// SIZE, GRAMMAR, else the run; then the stack and the rest of the list are 0.
#[tactic(auto, using(crate::specs::Laws::Judged::parsed, crate::specs::Laws::Judged::parse_refused), unfolding(crate::specs::Outcome::packed_parse, machine::specs::Outcome::unchanged))]
pub fn parse(
    grammar: Grammar,
    cells: Cells,
    tokens: &[u32],
    limit: u32,
    stack: &mut [u32],
    list: &mut [u32],
) -> Result<Ended, Refusal>
    ensures { outcome (said_of result) (moves_of result) stack.new list.new ≡ packed_parse grammar.entry.sizes grammar.entry.left.now grammar.entry.lens.now grammar.entry.rights.now cells.entry.base.now cells.entry.check.now tokens.now limit stack.old list.old }
{
    if !packed_fits(cells, tokens, limit) {
        return Err(Refusal::Size);
    }
    judge_grammar(grammar)?;
    let reads = Reader {
        rules: grammar.sizes.rules,
        cells,
    };
    let task = Task {
        grammar,
        tokens,
        limit,
        reads,
    };
    Ok(task.run_and_clear(stack, list))
}
