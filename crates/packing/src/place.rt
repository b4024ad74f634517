// The order of placement: state 0, the signed targets, then the turn of each state.
ghost use Rattle.std.specs.Prelude.{◌≡◌, ◌+◌, ◌-◌, ◌≤◌};
ghost use Rattle.packing.specs.Bench.{blank_b, target_b, targets_b, states_b, placement_b};
ghost use Rattle.packing.specs.Lent.{asked, cells, kept, SameLenders};
ghost use Rattle.packing.specs.Written.{bench};
ghost use Rattle.packing.specs.Turns.{wiped};

use crate::NoRoom;
use crate::bench::Bench;
use crate::job::Job;
use number::Signed;

impl<'a> Bench<'a> {
    // The signed target of nonterminal T + i stands at 2(T + i), where there is one.
    #[tactic(auto, unfolding(crate::specs::Job::job_of))]
    fn target(&mut self, job: Job, i: u32) -> Result<(), NoRoom>
        requires { job.sizes.terminals + i ≤ 512 }
        ensures cells { kept result (cells self.new) ≡ target_b (asked job.entry) job.entry.cells ((asked job.entry).terms + i) ((asked job.entry).gsig ((asked job.entry).terms + i)) (cells self.old) }
        ensures lent { SameLenders self.old self.new }
    {
        let t = number::at(job.signing.targets, i as usize, 0);
        if t == 0 {
            return Ok(());
        }
        let x = job.sizes.terminals + i;
        self.house(job, t, 2 * x as usize, x)
    }

    // The signed targets stand at their cells.
    #[tactic(auto, unfolding(crate::specs::Job::job_of))]
    fn targets(&mut self, job: Job) -> Result<(), NoRoom>
        ensures cells { kept result (cells self.new) ≡ targets_b (asked job.entry) job.entry.cells ((asked job.entry).syms - (asked job.entry).terms) (cells self.old) }
        ensures lent { SameLenders self.old self.new }
    {
        for i in 0..job.sizes.symbols - job.sizes.terminals {
            self.target(job, i)?;
        }
        Ok(())
    }

    // Each state has its turn.
    #[tactic(auto, unfolding(crate::specs::Job::job_of))]
    fn states(&mut self, job: Job) -> Result<(), NoRoom>
        ensures cells { kept result (cells self.new) ≡ states_b (asked job.entry) job.entry.cells job.entry.tries (asked job.entry).states (cells self.old) }
        ensures lent { SameLenders self.old self.new }
    {
        for s in 0..job.table.states {
            self.state(job, s)?;
        }
        Ok(())
    }

    // All of placement on arrays whose cells are free.
    fn place(&mut self, job: Job) -> Result<(), NoRoom>
        requires { cells self.old ≡ blank_b (asked job) job.cells }
        ensures cells { kept result (cells self.new) ≡ placement_b (asked job.entry) job.entry.cells job.entry.tries }
        ensures lent { SameLenders self.old self.new }
    {
        self.house(job, 0, 0, job.sizes.symbols)?;
        self.targets(job)?;
        self.states(job)
    }
}

// Every cell free: Base 0, Check `empty`, marks and places 0. The arrays are not yet a bench, as for `place_all`.
pub(crate) fn wipe(
    base: &mut [i32],
    check: &mut [i32],
    marks: &mut [u32],
    place: &mut [u32],
    empty: u32,
)
    requires { empty ≤ 512 }
    ensures { bench base.new check.new marks.new place.new ≡ wiped empty (bench base.old check.old marks.old place.old) }
{
    number::fill_i32(base, Signed::Plus(0));
    number::fill_i32(check, Signed::Plus(empty));
    number::clear_u32(marks, 0);
    number::clear_u32(place, 0);
}

// Placement on lent arrays whose cells are free. They come one by one, as they are lent: a bench wants its places wiped first,
// and says nothing of the lengths, which lent slices keep.
pub(crate) fn place_all(
    job: Job,
    base: &mut [i32],
    check: &mut [i32],
    marks: &mut [u32],
    place: &mut [u32],
) -> Result<(), NoRoom>
    requires { bench base.old check.old marks.old place.old ≡ blank_b (asked job) job.cells }
    ensures { kept result (bench base.new check.new marks.new place.new) ≡ placement_b (asked job.entry) job.entry.cells job.entry.tries }
{
    let mut bench = Bench {
        base,
        check,
        marks,
        place,
    };
    bench.place(job)
}
