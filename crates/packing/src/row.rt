// Written rows: their entries, and rows compared where the table has them.
ghost use Rattle.std.specs.Prelude.{◌≡◌, ◌≤◌, get_or};
ghost use Rattle.packing.specs.Written.{written_action, written_goto};
ghost use Rattle.packing.specs.Bounds.{RuleLow};
ghost use Rattle.packing.specs.Rows.{same_upto, empty_upto, rep, plan};
ghost use Rattle.cells.specs.Read.{action, goto};

use crate::job::Job;
use crate::{Kind, Plan, Written};
use number::Signed;

// A terminal's entry, blank where it is the state's signed rule. One function for both kinds, comparing with what is signed, took 6.0 ms to pack where these two take 4.2.
fn written_action(e: Signed, rule: u32) -> Written
    ensures { result ≡ written_action e rule }
{
    match e {
        Signed::Plus(0) => Written::Blank,
        Signed::Plus(t) => Written::Shift(t),
        Signed::Minus(r) if r == rule => Written::Blank,
        Signed::Minus(r) => Written::Rule(r),
    }
}

// A nonterminal's entry, blank where it is the column's signed state.
fn written_goto(e: Signed, target: u32) -> Written
    ensures { result ≡ written_goto e target }
{
    match e {
        Signed::Plus(t) if t == 0 || t == target => Written::Blank,
        Signed::Plus(t) => Written::Shift(t),
        Signed::Minus(r) => Written::Rule(r),
    }
}

// The written row of a state, of one kind.
#[derive(Clone, Copy)]
pub(crate) struct Row<'a> {
    pub(crate) job: Job<'a>,
    pub(crate) state: u32,
    pub(crate) kind: Kind,
    rule: u32,
    ghost signed: { rule ≡ get_or job.signing.rules.now state 0 },
}

impl<'a> Row<'a> {
    ghost use Rattle.packing.specs.Lent.{asked, as_kind, row_of};

    // The written row of state s, of one kind.
    pub(crate) fn of(job: Job<'a>, state: u32, kind: Kind) -> Row<'a>
        ensures job { result.job ≡ job.entry }
        ensures row { (result.state ≡ state) × (result.kind ≡ kind) }
    {
        Row {
            job,
            state,
            kind,
            rule: number::at(job.signing.rules, state as usize, 0),
        }
    }

    // The entry of column a.
    #[tactic(auto, using(std::proofs::lemmas::Bool::Decides::nat_tests, crate::specs::Laws::Written::written_action_is, crate::specs::Laws::Written::written_goto_is), unfolding(crate::specs::Rows::row, crate::specs::Job::job_of))]
    pub(crate) fn at(self, a: u32) -> Written
        ensures entry { result ≡ row_of self.entry a }
        ensures low { RuleLow result }
    {
        let terminals = self.job.sizes.terminals;
        match self.kind {
            Kind::Action if a < terminals => {
                written_action(self.job.entry(self.state, a), self.rule)
            }
            Kind::Goto if terminals <= a => {
                let target = number::at(self.job.signing.targets, (a - terminals) as usize, 0);
                written_goto(self.job.entry(self.state, a), target)
            }
            _ => Written::Blank,
        }
    }

    // The row is empty: a goto row, whose columns are the nonterminals.
    #[tactic(auto, using(crate::specs::Laws::Compared::empty_upto_yes))]
    fn is_empty(self) -> bool
        requires { as_kind self.kind ≡ goto }
        ensures { result ≡ empty_upto (row_of self.entry) self.entry.job.sizes.symbols }
    {
        for a in self.job.sizes.terminals..self.job.sizes.symbols {
            if self.at(a) != Written::Blank {
                return false;
            }
        }
        true
    }

    // This row and another are the same in the columns of terminals: column by column.
    #[tactic(auto, using(crate::specs::Laws::Rows::same_of))]
    fn same_columns(self, other: Row) -> bool
        ensures { result ≡ same_upto (row_of self.entry) (row_of other.entry) self.entry.job.sizes.terminals }
    {
        for a in 0..self.job.sizes.terminals {
            if self.at(a) != other.at(a) {
                return false;
            }
        }
        true
    }

    // The same, with a look at one column first, in which rows that differ mostly do.
    fn same_row(self, other: Row, column: u32) -> bool
        ensures { result ≡ same_upto (row_of self.entry) (row_of other.entry) self.entry.job.sizes.terminals }
    {
        if column < self.job.sizes.terminals && self.at(column) != other.at(column) {
            return false;
        }
        self.same_columns(other)
    }

    // The first written column of terminals, or T where there is none.
    fn first_written(self) -> u32
        ensures { result ≤ self.entry.job.sizes.terminals }
    {
        let terminals = self.job.sizes.terminals;
        (0..terminals)
            .find(|a| self.at(*a) != Written::Blank)
            .unwrap_or(terminals)
    }

    // The first state with this action row.
    fn first_same(self) -> u32
        requires { as_kind self.kind ≡ action }
        ensures { result ≡ rep (asked self.entry.job) action self.entry.state }
    {
        let column = self.first_written();
        for j in 0..self.state {
            if Row::of(self.job, j, Kind::Action).same_row(self, column) {
                return j;
            }
        }
        self.state
    }

    // What is done with the row: an action row is shared if it can be, an empty goto row is left out.
    #[tactic(auto, using(std::proofs::lemmas::Bool::Decides::nat_tests), unfolding(crate::specs::Rows::plan, crate::specs::Job::job_of))]
    pub(crate) fn plan(self) -> Plan
        ensures { result ≡ plan (asked self.entry.job) (as_kind self.entry.kind) self.entry.state }
    {
        match self.kind {
            Kind::Action => match self.first_same() {
                r if r == self.state => Plan::Search,
                r => Plan::Share(r),
            },
            Kind::Goto if self.is_empty() => Plan::Skip,
            Kind::Goto => Plan::Search,
        }
    }
}
