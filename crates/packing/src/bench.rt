// The bench: the four lent arrays, and the stores.
ghost use Rattle.std.specs.Prelude.{◌≡◌, ◌≤◌, ◌<◌, get_or, pos};
ghost use Rattle.number.specs.Number.{plus_of};
ghost use Rattle.packing.specs.Bounds.{Low};
ghost use Rattle.packing.specs.Job.{neg};
ghost use Rattle.packing.specs.Bench.{put_b, settle_b, write_b, house_b, fill_b, cell_of, base_b, base_of_b};

use crate::job::Job;
use crate::row::Row;
use crate::{Kind, NoRoom, Written};
use number::Signed;

// Base, Check, the marks and the places, as they are lent. `SameLenders` stays a clause of its methods: it is of two benches, and a type's fact is of one.
#[derive(Drop)]
pub(crate) struct Bench<'a> {
    pub(crate) base: &'a mut [i32],
    pub(crate) check: &'a mut [i32],
    pub(crate) marks: &'a mut [u32],
    pub(crate) place: &'a mut [u32],
    ghost low: { Low place.now },
}

impl<'a> Bench<'a> {
    ghost use Rattle.packing.specs.Lent.{asked, as_kind, row_of, cells, kept, SameLenders};

    // The cell of state t, or 0, which stands for none in the places as C takes them.
    pub(crate) fn place_of(&self, t: u32) -> u32
        ensures place { result ≡ get_or self.now.place.now t 0 }
        ensures low { result ≤ 4000000 }
    {
        number::at(self.place, t as usize, 0)
    }

    // Lets state t stand at cell c, reached by symbol k, with its attached cell.
    // That k is a symbol, at most 512, is asked here, by house and by put: each caller has it at hand, and a type for it would be made anew at every call.
    fn settle(&mut self, job: Job, t: u32, c: usize, k: u32)
        requires cell { c ≤ 4000000 }
        requires symbol { k ≤ 512 }
        ensures cells { cells self.new ≡ settle_b (asked job.entry) t c (pos k) (cells self.old) }
        ensures lent { SameLenders self.old self.new }
    {
        number::put_i32(self.check, c, Signed::Plus(k));
        number::put_i32(self.check, c + 1, job.attached(t));
        number::put(self.marks, c, 1);
        number::put(self.marks, c + 1, 1);
        number::put(self.place, t as usize, c as u32);
    }

    // Settles state t at cell c if both its cells are there.
    pub(crate) fn house(&mut self, job: Job, t: u32, c: usize, k: u32) -> Result<(), NoRoom>
        requires { k ≤ 512 }
        ensures cells { kept result (cells self.new) ≡ house_b (asked job.entry) job.entry.cells t c (pos k) (cells self.old) }
        ensures lent { SameLenders self.old self.new }
    {
        if c < job.cells && c + 1 < job.cells {
            self.settle(job, t, c, k);
            Ok(())
        } else {
            Err(NoRoom)
        }
    }

    // Stores the negative of n at cell c, for column a.
    fn put(&mut self, c: usize, n: u32, a: u32)
        requires number { n ≤ 4001024 }
        requires column { a ≤ 512 }
        ensures cells { cells self.new ≡ put_b c (neg n) (pos a) (cells self.old) }
        ensures lent { SameLenders self.old self.new }
    {
        number::put_i32(self.base, c, Signed::Minus(n));
        number::put_i32(self.check, c, Signed::Plus(a));
        number::put(self.marks, c, 1);
    }

    // Stores the row's entry of column a at cell c: a shift to a state without a cell gives it one, to another is a pointer.
    #[tactic(auto, unfolding(crate::specs::Job::job_of))]
    fn write(&mut self, row: Row, a: u32, c: usize)
        requires column { a < row.job.sizes.symbols }
        requires cell { c ≤ 4000000 }
        ensures cells { cells self.new ≡ write_b (asked row.entry.job) a c (row_of row.entry a) (cells self.old) }
        ensures lent { SameLenders self.old self.new }
    {
        match row.at(a) {
            Written::Blank => {}
            Written::Rule(r) => self.put(c, r, a),
            Written::Shift(t) => {
                let x = self.place_of(t);
                if x == 0 {
                    self.settle(row.job, t, c, a);
                } else {
                    self.put(c, row.job.sizes.rules + x, a);
                }
            }
        }
    }

    // Writes a row from base b.
    pub(crate) fn fill(&mut self, row: Row, b: u32)
        requires { b ≤ 3000001 }
        ensures cells { cells self.new ≡ fill_b (asked row.entry.job) (as_kind row.entry.kind) row.entry.state b row.entry.job.sizes.symbols (cells self.old) }
        ensures lent { SameLenders self.old self.new }
    {
        for a in 0..row.job.sizes.symbols {
            self.write(row, a, (b + 2 * a) as usize);
        }
    }

    // The cell that holds the base of state s of one kind: its own, or the attached one. It takes the places alone, which a search has at hand.
    pub(crate) fn cell_of(place: &[u32], s: u32, kind: Kind) -> usize
        ensures { result ≡ cell_of (as_kind kind) place.now s }
    {
        let x = number::at(place, s as usize, 0) as usize;
        match kind {
            Kind::Action => x,
            Kind::Goto => x + 1,
        }
    }

    // The same cell, of this bench.
    fn base_cell(&self, s: u32, kind: Kind) -> usize
        ensures { result ≡ cell_of (as_kind kind) self.now.place.now s }
    {
        Bench::cell_of(self.place, s, kind)
    }

    // The base of state s of one kind, or 0.
    pub(crate) fn base_of(&self, s: u32, kind: Kind) -> u32
        ensures base { result ≡ plus_of (base_of_b (as_kind kind) (cells self.now) s) }
        ensures low { result < 2147483648 }
    {
        number::plus_at(self.base, self.base_cell(s, kind))
    }

    // Gives s the base b of one kind.
    pub(crate) fn put_base(&mut self, s: u32, kind: Kind, b: u32)
        requires { b ≤ 2147483647 }
        ensures cells { cells self.new ≡ base_b (as_kind kind) s b (cells self.old) }
        ensures lent { SameLenders self.old self.new }
    {
        let c = self.base_cell(s, kind);
        number::put_i32(self.base, c, Signed::Plus(b));
    }
}
