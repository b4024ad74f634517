// The table check, exported. C lends numbers and slices, so they stand apart here.
ghost use Rattle.std.specs.Prelude.{◌≡◌};
ghost use Rattle.soundness.specs.Outcome as check;
ghost use Rattle.answers.specs.Answer.{answer_of};

use answers::Answer;
use tables::{Grammar, Signing, Sizes, Table};

// Checks grammar, table and signing: OK, a refusal 1 to 4, or UNSOUND with state and rule.
#[unsafe(no_mangle)]
pub extern "C" fn slettrein_check(
    terminals: u32,
    symbols: u32,
    rules: u32,
    states: u32,
    left: &[u32],
    lens: &[u32],
    rights: &[u32],
    table: &[i32],
    srule: &[u32],
    sgoto: &[u32],
) -> Answer
    ensures { result ≡ answer_of (check.checked (record { terminals = terminals; symbols = symbols; rules = rules }) states left.now lens.now rights.now table.now srule.now sgoto.now) }
{
    let sizes = Sizes {
        terminals,
        symbols,
        rules,
    };
    let grammar = Grammar {
        sizes,
        left,
        lens,
        rights,
    };
    let table = Table {
        states,
        entries: table,
    };
    let signing = Signing {
        rules: srule,
        targets: sgoto,
    };
    soundness::verdict::check(grammar, table, signing).into()
}
