// The cells that a row needs, gathered once before its base is searched.
ghost use Rattle.std.specs.Prelude.{◌≤◌, ◌<◌, ◌+◌, ◌≡◌, length};
ghost use Rattle.packing.specs.Bench.{seen, no_cell_b};
ghost use Rattle.packing.specs.Gathered.{Needed, Gathered};
ghost use Rattle.packing.specs.Lent.{cells, row_of};

use crate::Written;
use crate::bench::Bench;
use crate::row::Row;
use arrayvec::ArrayVec;

impl<'a> Row<'a> {
    // Some column below n of the row shifts to t; columns with one state mostly stand together, so the nearest is asked first.
    fn seen_below(self, t: u32, n: u32) -> bool
        ensures { result ≡ seen (row_of self.entry) t n }
    {
        for a in (0..n).rev() {
            if self.at(a) == Written::Shift(t) {
                return true;
            }
        }
        false
    }
}

impl<'a> Bench<'a> {
    // Adds the cells that the entry of column a needs: its own, and one more if it gives a state its cell.
    fn need_column(&self, row: Row, a: u32, need: &mut ArrayVec<u32, 1024>)
        requires column { a < 512 }
        requires room { length need.old.items + 2 ≤ 1024 }
        ensures cells { Needed (no_cell_b (cells self.now)) (row_of row.entry) a need.old.items need.new.items }
        ensures few { length need.new.items ≤ length need.old.items + 2 }
    {
        match row.at(a) {
            Written::Blank => {}
            Written::Rule(_) => need.push(2 * a),
            Written::Shift(t) => {
                need.push(2 * a);
                if self.place_of(t) == 0 && !row.seen_below(t, a) {
                    need.push(2 * a + 1);
                }
            }
        }
    }

    // Gathers the cells that a row needs, counted from its base, in a list that is empty; it is lent, so that it is not copied.
    pub(crate) fn gather(&self, row: Row, need: &mut ArrayVec<u32, 1024>)
        requires { length need.old.items ≡ 0 }
        ensures { Gathered (no_cell_b (cells self.now)) (row_of row.entry) row.entry.job.sizes.symbols need.new.items }
    {
        for a in 0..row.job.sizes.symbols {
            self.need_column(row, a, need);
        }
    }
}
