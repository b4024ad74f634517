// The two reads that a parser makes: the action for a terminal, the goto for a nonterminal.
ghost use Rattle.std.specs.Prelude.{◌≡◌, ℕ, ◌+◌, ◌*◌, ◌<◌, ◌^◌, pos, get_or};
ghost use Rattle.cells.specs.Read.{action, goto, cells_of, twice, is_pos, found, state_read, rule_read, sign_read, entry_read, default_read, read_at, read_from, read_cell};
ghost use Rattle.cells.specs.Parts.{goto_base, state_alone};

use number::Signed;
use reads::{Read, Way};

// Rule r, found on terminal a.
#[tactic(auto, using(std::proofs::lemmas::Bool::Decides::nat_tests), unfolding(crate::specs::Read::rule_read))]
fn rule_read(a: u32, r: u32) -> Option<Read>
    ensures { result ≡ rule_read a r }
{
    if r == 1 {
        if a == 0 { Some(Read::Accept) } else { None }
    } else {
        Some(Read::Reduce(r))
    }
}

// A state is what a goto asks for: a rule is no answer.
fn state_alone(r: Option<Read>) -> Option<Read>
    ensures { result ≡ state_alone r }
{
    match r {
        Some(Read::Shift(w)) => Some(Read::Shift(w)),
        _ => None,
    }
}

// The cells: Base and Check. How many rules there are is the grammar's to say, so it goes beside them and not in here.
#[derive(Clone, Copy)]
pub struct Cells<'a> {
    pub base: &'a [i32],
    pub check: &'a [i32],
}

impl<'a> Cells<'a> {
    // What stands at cell y of Base is not negative.
    fn not_negative(self, y: usize) -> bool
        ensures { result ≡ is_pos (get_or self.entry.base.now y (pos 0)) }
    {
        match number::at_i32(self.base, y) {
            Signed::Plus(_) => true,
            Signed::Minus(_) => false,
        }
    }

    // Symbol a is found at cell t.
    #[tactic(auto, using(std::proofs::lemmas::Bool::Decides::nat_tests), unfolding(crate::specs::Read::found, crate::specs::Read::cells_of))]
    fn is_found(self, t: usize, a: u32) -> bool
        ensures { (rules : ℕ) → result ≡ found (cells_of rules twice self.entry.base.now self.entry.check.now) t a }
    {
        t < self.base.len() && number::holds_i32(self.check, t, a)
    }

    // The state at cell y, which symbol a gives by way w; y is 0 only where a is, so that it needs no test.
    #[tactic(auto, using(std::proofs::lemmas::Bool::Decides::nat_tests), unfolding(crate::specs::Read::state_read, crate::specs::Read::is_state, crate::specs::Read::cells_of))]
    fn state_read(self, a: u32, w: Way, y: usize) -> Option<Read>
        requires near { y < 2 ^ 63 }
        requires given { y ≡ 0 → a ≡ 0 }
        ensures { (rules : ℕ) → result ≡ state_read (cells_of rules twice self.entry.base.now self.entry.check.now) a w y }
    {
        let good = a != 0 && (y + 1 < self.base.len() && self.not_negative(y));
        good.then_some(Read::Shift(w))
    }

    // The signed rule of a state whose attached cell is y.
    #[tactic(auto, using(std::proofs::lemmas::Bool::Decides::nat_tests))]
    fn sign_read(self, rules: u32, y: usize) -> Option<Read>
        ensures { result ≡ sign_read rules (get_or self.entry.check.now y (pos 0)) }
    {
        match number::at_i32(self.check, y) {
            Signed::Plus(_) => Some(Read::Blank),
            Signed::Minus(r) if 2 <= r && r <= rules => Some(Read::Reduce(r)),
            Signed::Minus(_) => None,
        }
    }

    // The action that Base of the cell t says, where a is found.
    #[tactic(auto, using(std::proofs::lemmas::Bool::Decides::nat_tests), unfolding(crate::specs::Read::cells_of))]
    fn entry_read(self, rules: u32, a: u32, t: usize) -> Option<Read>
        requires near { t < 2 ^ 63 }
        requires given { t ≡ 0 → a ≡ 0 }
        ensures { result ≡ entry_read action (cells_of rules twice self.entry.base.now self.entry.check.now) a t (get_or self.entry.base.now t (pos 0)) }
    {
        match number::at_i32(self.base, t) {
            Signed::Plus(_) => self.state_read(a, Way::Direct(t), t),
            Signed::Minus(n) if rules < n => {
                let y = (n - rules) as usize;
                self.state_read(a, Way::Pointer(y), y)
            }
            Signed::Minus(n) => rule_read(a, n),
        }
    }

    // The action for terminal a from an action base, of a state whose attached cell is y.
    #[tactic(auto, unfolding(crate::specs::Read::read_at, crate::specs::Read::cells_of))]
    fn action_from(self, rules: u32, y: usize, base: u32, a: u32) -> Option<Read>
        ensures { (x : ℕ) → y ≡ x + 1 → result ≡ read_at action (cells_of rules twice self.entry.base.now self.entry.check.now) x a (base + 2 * a) }
    {
        let t = base as usize + 2 * (a as usize);
        if self.is_found(t, a) {
            self.entry_read(rules, a, t)
        } else {
            self.sign_read(rules, y)
        }
    }

    // The read of an action: terminal a at the state at cell x.
    #[tactic(auto, using(std::proofs::lemmas::Bool::Decides::nat_tests), unfolding(crate::specs::Read::read_cell, crate::specs::Read::cells_of))]
    pub fn action_at(self, rules: u32, x: u32, a: u32) -> Option<Read>
        ensures { result ≡ read_cell action (cells_of rules twice self.entry.base.now self.entry.check.now) x a }
    {
        let y = x as usize + 1;
        if y < self.base.len() {
            match number::at_i32(self.base, x as usize) {
                Signed::Plus(b) => self.action_from(rules, y, b, a),
                Signed::Minus(_) => None,
            }
        } else {
            None
        }
    }

    // The default target of nonterminal a.
    #[tactic(auto, unfolding(crate::specs::Read::cells_of))]
    fn target_read(self, a: u32) -> Option<Read>
        ensures { (rules x : ℕ) → result ≡ default_read goto (cells_of rules twice self.entry.base.now self.entry.check.now) x a }
    {
        let y = 2 * (a as usize);
        if self.is_found(y, a) {
            self.state_read(a, Way::Direct(y), y)
        } else {
            Some(Read::Blank)
        }
    }

    // The goto base that stands at cell y: 0 where it is 0 or less, as the definitions of reads have it.
    fn goto_base(self, y: usize) -> u32
        ensures { result ≡ goto_base (get_or self.entry.base.now y (pos 0)) }
    {
        number::plus_at(self.base, y)
    }

    // The goto on nonterminal a from the goto base b, where 0 means no written gotos.
    #[tactic(auto, using(crate::specs::Laws::Parts::goto_written, crate::specs::Laws::Parts::goto_base_zero, crate::specs::Laws::Parts::goto_not_found), unfolding(crate::specs::Read::cells_of))]
    fn goto_from(self, rules: u32, b: u32, a: u32) -> Option<Read>
        ensures { (x : ℕ) → result ≡ read_from goto (cells_of rules twice self.entry.base.now self.entry.check.now) x a (pos b) }
    {
        let t = b as usize + 2 * (a as usize);
        if b != 0 && self.is_found(t, a) {
            state_alone(self.entry_read(rules, a, t))
        } else {
            self.target_read(a)
        }
    }

    // The read of a goto: nonterminal a at the state at cell x.
    #[tactic(auto, using(std::proofs::lemmas::Bool::Decides::nat_tests, crate::specs::Laws::Parts::goto_from_base), unfolding(crate::specs::Read::read_cell, crate::specs::Read::cells_of))]
    pub fn goto_at(self, rules: u32, x: u32, a: u32) -> Option<Read>
        ensures { result ≡ read_cell goto (cells_of rules twice self.entry.base.now self.entry.check.now) x a }
    {
        let y = x as usize + 1;
        if y < self.base.len() && self.not_negative(x as usize) {
            self.goto_from(rules, self.goto_base(y), a)
        } else {
            None
        }
    }
}
