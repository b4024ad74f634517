// What a machine reads: the answer of a read, and a way of reading.
#![tactic(auto)]

ghost use Rattle.std.specs.Prelude.{◌≡◌, ℕ};
ghost use Rattle.reads.specs.Read.{way_cell};
ghost use Rattle.reads.specs.Reads.{Reads, act_said, go_said, Sound};

// Where the cell of a shift's state was found: at the symbol's own cell, or through a pointer there.
#[derive(Clone, Copy, Debug, PartialEq, Eq)]
pub enum Way {
    Direct(usize),
    Pointer(usize),
}

// What a read answers; what is malformed has no answer.
#[derive(Clone, Copy, Debug, PartialEq, Eq)]
pub enum Read {
    Shift(Way),
    Reduce(u32),
    Accept,
    Blank,
}

// The cell of a shift's state.
pub fn cell_of(w: Way) -> usize
    ensures { result ≡ way_cell w }
{
    match w {
        Way::Direct(y) => y,
        Way::Pointer(y) => y,
    }
}

// A way of reading, which the machine is generic over.
pub trait Reading {
    // What it is as a way of reading.
    ghost reads: { Self → Reads };

    // How many rules it reduces by.
    ghost rules: { Self → ℕ };

    // The read of an action: a terminal at a state.
    fn action(&self, state: u32, terminal: u32) -> Option<Read>
        ensures said { act_said result ≡ (reads self.now).act state terminal }
        ensures sound { Sound (rules self.now) result };

    // The read of a goto: a nonterminal at a state.
    fn goto(&self, state: u32, nonterminal: u32) -> Option<Read>
        ensures said { go_said result ≡ (reads self.now).go state nonterminal }
        ensures sound { Sound (rules self.now) result };
}
