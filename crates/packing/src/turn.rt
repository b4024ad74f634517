// The turn of a state: its own cell, its action row, its goto row.
ghost use Rattle.std.specs.Prelude.{◌≡◌};
ghost use Rattle.packing.specs.Bench.{row_by_b, row_b, home_b, state_b};
ghost use Rattle.packing.specs.Lent.{asked, as_kind, cells, kept, SameLenders};

use crate::bench::Bench;
use crate::job::Job;
use crate::row::Row;
use crate::search::all_inside;
use crate::{Kind, NoRoom, Plan};
use arrayvec::ArrayVec;

impl<'a> Bench<'a> {
    // Writes a row from the least base that is free for it, which becomes the base of its state.
    // It stays a call: if it is put into `row`, the loop of the search has fewer registers and its jumps lie worse, and it takes up to 1.6 times as long.
    #[inline(never)]
    fn place_row(&mut self, row: Row) -> Result<(), NoRoom>
        ensures cells { kept result (cells self.new) ≡ row_by_b Plan.Search (asked row.entry.job) row.entry.job.cells row.entry.job.tries (as_kind row.entry.kind) row.entry.state (cells self.old) }
        ensures lent { SameLenders self.old self.new }
    {
        let mut need = ArrayVec::new();
        self.gather(row, &mut need);
        let b = self.least_base(row, &need);
        if !all_inside(&need, b, row.job.cells) {
            return Err(NoRoom);
        }
        self.put_base(row.state, row.kind, b as u32);
        self.fill(row, b as u32);
        Ok(())
    }

    // The turn of the row of s of one kind: it gets its base, and is written where that is its own.
    fn row(&mut self, job: Job, s: u32, kind: Kind) -> Result<(), NoRoom>
        ensures cells { kept result (cells self.new) ≡ row_b (asked job.entry) job.entry.cells job.entry.tries (as_kind kind) s (cells self.old) }
        ensures lent { SameLenders self.old self.new }
    {
        let row = Row::of(job, s, kind);
        match row.plan() {
            Plan::Skip => Ok(()),
            Plan::Share(r) => {
                let b = self.base_of(r, kind);
                self.put_base(s, kind, b);
                Ok(())
            }
            Plan::Search => self.place_row(row),
        }
    }

    // The cell of s: if it has none, the least x from 1 up with x and x + 1 free.
    fn home(&mut self, job: Job, s: u32) -> Result<(), NoRoom>
        ensures cells { kept result (cells self.new) ≡ home_b (asked job.entry) job.entry.cells job.entry.tries s (cells self.old) }
        ensures lent { SameLenders self.old self.new }
    {
        if s == 0 || self.place_of(s) != 0 {
            return Ok(());
        }
        let x = self.least_home(job);
        self.house(job, s, x, job.sizes.symbols)
    }

    // The turn of s: its cell, its action row, its goto row.
    pub(crate) fn state(&mut self, job: Job, s: u32) -> Result<(), NoRoom>
        ensures cells { kept result (cells self.new) ≡ state_b (asked job.entry) job.entry.cells job.entry.tries s (cells self.old) }
        ensures lent { SameLenders self.old self.new }
    {
        self.home(job, s)?;
        self.row(job, s, Kind::Action)?;
        self.row(job, s, Kind::Goto)
    }
}
