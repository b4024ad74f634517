// Packing: SIZE, GRAMMAR, ENTRY and SIGN, then placement, NOROOM or the count.
ghost use Rattle.std.specs.Prelude.{◌≡◌, length};
ghost use Rattle.packing.specs.Bench.{placement_b};
ghost use Rattle.packing.specs.Written.{bench};
ghost use Rattle.packing.specs.Lent.{asked};
ghost use Rattle.packing.specs.Turns.{Sized};
ghost use Rattle.packing.specs.Packing.{said_of, packing_result, arrays_fit, count_of, placed_by, packed};

use crate::PackRefusal;
use crate::job::Job;
use crate::place::{place_all, wipe};
use cells::size::cells_fit;
use judgement::judge::judge;
use tables::{Grammar, Refusal, Signing, Table};

// The highest taken cell plus 1.
#[tactic(auto, unfolding(crate::specs::Packing::count_of))]
fn count(marks: &[u32]) -> usize
    ensures { result ≡ count_of marks.now }
{
    let mut n = 0;
    for (c, mark) in marks.iter().enumerate() {
        if *mark != 0 {
            n = c + 1;
        }
    }
    n
}

// The four arrays have W, W, W and L elements, and W is within its bounds. They are not yet a bench, as for `place_all`.
#[tactic(auto, using(std::proofs::lemmas::Bool::Decides::nat_tests), unfolding(crate::specs::Packing::arrays_fit))]
fn arrays_fit(states: u32, base: &[i32], check: &[i32], marks: &[u32], place: &[u32]) -> bool
    ensures { result ≡ arrays_fit states (bench base.now check.now marks.now place.now) }
{
    cells_fit(base, check) && marks.len() == base.len() && place.len() == states as usize
}

// Places a table and a signing that have been judged; without room all four arrays are 0. They are not a bench here, as for `place_all`.
fn pack_judged(
    job: Job,
    base: &mut [i32],
    check: &mut [i32],
    marks: &mut [u32],
    place: &mut [u32],
) -> Result<usize, PackRefusal>
    requires cells { job.cells ≡ length base.old }
    requires sized { Sized job.table.states (bench base.old check.old marks.old place.old) }
    ensures { packing_result (said_of result) (bench base.new check.new marks.new place.new) ≡ placed_by (placement_b (asked job.entry) job.entry.cells job.entry.tries) (bench base.old check.old marks.old place.old) }
{
    wipe(base, check, marks, place, job.sizes.symbols);
    match place_all(job, base, check, marks, place) {
        Ok(()) => Ok(count(marks)),
        Err(_) => {
            wipe(base, check, marks, place, 0);
            Err(PackRefusal::NoRoom)
        }
    }
}

// Packs grammar, table and signing into the lent cells.
pub fn pack(
    grammar: Grammar,
    table: Table,
    signing: Signing,
    base: &mut [i32],
    check: &mut [i32],
    marks: &mut [u32],
    place: &mut [u32],
) -> Result<usize, PackRefusal>
    ensures { packing_result (said_of result) (bench base.new check.new marks.new place.new) ≡ packed grammar.entry.sizes table.entry.states grammar.entry.left.now grammar.entry.lens.now grammar.entry.rights.now table.entry.entries.now signing.entry.rules.now signing.entry.targets.now (bench base.old check.old marks.old place.old) }
{
    if !arrays_fit(table.states, base, check, marks, place) {
        return Err(PackRefusal::Judged(Refusal::Size));
    }
    judge(grammar, table, signing)?;
    let sizes = grammar.sizes;
    let m = sizes.symbols as usize;
    let tries = 2 * m + table.states as usize * (4 * m + 4);
    let job = Job {
        sizes,
        table,
        signing,
        cells: base.len(),
        tries,
    };
    pack_judged(job, base, check, marks, place)
}
