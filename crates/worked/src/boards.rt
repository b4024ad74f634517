// The boards of the cases, beside the small board itself.
ghost use Rattle.std.specs.Prelude.{◌<◌};

use board::Board;

// The small board with state s signed r.
pub(crate) fn signing(s: usize, r: u32) -> Board
    requires { s < 7 }
{
    let mut made = board::small();
    made.srule[s] = r;
    made
}

// The same board with the entry for state 3 and b blanked.
pub(crate) fn blanked(b: Board) -> Board {
    let mut made = b;
    made.table[20] = 0;
    made
}

// The same board with nothing signed.
pub(crate) fn unsigned(b: Board) -> Board {
    Board {
        srule: [0; 7],
        sgoto: [0; 3],
        ..b
    }
}
