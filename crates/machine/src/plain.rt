// The plain machine: the entries of the filled table for reads.
ghost use Rattle.std.specs.Prelude.{◌≡◌};
ghost use Rattle.machine.specs.Outcome.{said_of, moves_of, outcome, plain_parse};

use crate::Ended;
use crate::filled::Filled;
use crate::job::job_fits;
use crate::task::Task;
use judgement::judge::judge;
use tables::{Grammar, Refusal, Signing, Table};

// SIZE, GRAMMAR, ENTRY, SIGN, else the run of the plain machine; then the stack and the rest of the list are 0.
#[tactic(auto, using(crate::specs::Laws::Outcome::parsed, crate::specs::Laws::Outcome::parse_refused), unfolding(crate::specs::Outcome::plain_parse, crate::specs::Outcome::unchanged))]
pub fn plain_parse(
    grammar: Grammar,
    table: Table,
    signing: Signing,
    tokens: &[u32],
    limit: u32,
    stack: &mut [u32],
    list: &mut [u32],
) -> Result<Ended, Refusal>
    ensures { outcome (said_of result) (moves_of result) stack.new list.new ≡ plain_parse grammar.entry.sizes table.entry.states grammar.entry.left.now grammar.entry.lens.now grammar.entry.rights.now table.entry.entries.now signing.entry.rules.now signing.entry.targets.now tokens.now limit stack.old list.old }
{
    if !job_fits(tokens, limit) {
        return Err(Refusal::Size);
    }
    judge(grammar, table, signing)?;
    let reads = Filled {
        sizes: grammar.sizes,
        table,
        signing,
    };
    let task = Task {
        grammar,
        tokens,
        limit,
        reads,
    };
    Ok(task.run_and_clear(stack, list))
}
