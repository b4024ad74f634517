// The searches: for the least base of a row, and for the least cell of a state.
ghost use Rattle.std.specs.Prelude.{◌≡◌, false, ◌+◌, ◌≤◌, get_or, pos, replicate};
ghost use Rattle.std.specs.List.{list_all};
ghost use Rattle.cells.specs.Read.{is_number};
ghost use Rattle.packing.specs.Bench.{cell_of, used_b, free2_b, first_b, inside};
ghost use Rattle.packing.specs.Gathered.{free_in, Marked, test_b};
ghost use Rattle.packing.specs.Lent.{as_kind, cells};

use crate::Kind;
use crate::bench::Bench;
use crate::job::Job;
use crate::row::Row;

// Cell c is free; those at W or above are.
fn is_free(marks: &[u32], c: usize) -> bool
    ensures { result ≡ free_in marks.now c }
{
    number::at(marks, c, 0) == 0
}

// b is the base of state s.
fn has_base(base: &[i32], place: &[u32], s: u32, kind: Kind, b: u32) -> bool
    ensures { result ≡ is_number (get_or base.now (cell_of (as_kind kind) place.now s) (pos 0)) b }
{
    number::holds_i32(base, Bench::cell_of(place, s, kind), b)
}

impl<'a> Bench<'a> {
    // The least cell from 1 up that is free with the one after it; so many cells are tried at most.
    pub(crate) fn least_home(&self, job: Job) -> usize
        ensures first { result ≡ first_b (free2_b (cells self.now)) job.entry.tries 1 (free2_b (cells self.now) 1) }
        ensures low { result ≤ 3000001 }
    {
        let marks = &*self.marks;
        for x in 1..job.tries + 1 {
            if is_free(marks, x) && is_free(marks, x + 1) {
                return x;
            }
        }
        job.tries + 1
    }

    // b is the base of a state below s; a base far out is mostly that of a late state, so the latest is asked first. The two arrays are named before the loop, which else asks the bench for them at each state.
    fn is_used(&self, s: u32, kind: Kind, b: u32) -> bool
        ensures { result ≡ used_b (cells self.now) (as_kind kind) b s }
    {
        let (base, place) = (&*self.base, &*self.place);
        for n in (0..s).rev() {
            if has_base(base, place, n, kind, b) {
                return true;
            }
        }
        false
    }

    // Marks the bases of one kind of the states below s; one outside `used` is left out.
    fn mark_used(&self, s: u32, kind: Kind, used: &mut [bool])
        requires { used.old ≡ replicate 16384 false }
        ensures { Marked (cells self.now) (as_kind kind) s used.new }
    {
        for n in 0..s {
            let b = self.base_of(n, kind) as usize;
            if b < used.len() {
                used[b] = true;
            }
        }
    }

    // b is the base of a state below s, as `used` says where it reaches so far.
    fn is_base(&self, used: &[bool], s: u32, kind: Kind, b: usize) -> bool
        requires base { (1 ≤ b) × (b ≤ 3000000) }
        requires used { Marked (cells self.now) (as_kind kind) s used.now }
        ensures { result ≡ used_b (cells self.now) (as_kind kind) b s }
    {
        if b < used.len() {
            used[b]
        } else {
            self.is_used(s, kind, b as u32)
        }
    }

    // The least base from 1 up that is no earlier row's and from which the cells of `need` are free; so many bases are tried at most.
    pub(crate) fn least_base(&self, row: Row, need: &[u32]) -> usize
        ensures first { result ≡ first_b (test_b (cells self.now) (as_kind row.entry.kind) row.entry.state need.now) row.entry.job.tries 1 (test_b (cells self.now) (as_kind row.entry.kind) row.entry.state need.now 1) }
        ensures low { result ≤ 3000001 }
    {
        // No heap: the bases that earlier rows have are flags in the frame.
        let mut used = [false; 16384];
        self.mark_used(row.state, row.kind, &mut used);
        let marks = &*self.marks;
        // A labelled nested search is a form that the requirements name (docs/DECISIONS.md).
        'bases: for b in 1..row.job.tries + 1 {
            for c in need {
                if !is_free(marks, b + *c as usize) {
                    continue 'bases;
                }
            }
            if !self.is_base(&used, row.state, row.kind, b) {
                return b;
            }
        }
        row.job.tries + 1
    }
}

// The cells of `need`, counted from b, are below w.
pub(crate) fn all_inside(need: &[u32], b: usize, w: usize) -> bool
    requires { b ≤ 4000000 }
    ensures { result ≡ list_all (λ c. inside w (b + c)) need.now }
{
    need.iter().all(|c| b + (*c as usize) < w)
}
