// The plain machine over the filled table, exported. C lends numbers and slices, so they stand apart here.
ghost use Rattle.std.specs.Prelude.{◌≡◌};
ghost use Rattle.machine.specs.Outcome.{plain_parse};
ghost use Rattle.answers.specs.Ended.{ended, ended_of};

use answers::ParseAnswer;
use tables::{Grammar, Signing, Sizes, Table};

// Parses the tokens with the filled table: OK, or a refusal 1 to 4 or 7 to 13.
#[unsafe(no_mangle)]
pub extern "C" fn slettrein_plain(
    terminals: u32,
    symbols: u32,
    rules: u32,
    states: u32,
    left: &[u32],
    lens: &[u32],
    rights: &[u32],
    table: &[i32],
    srule: &[u32],
    sgoto: &[u32],
    tokens: &[u32],
    limit: u32,
    stack: &mut [u32],
    list: &mut [u32],
) -> ParseAnswer
    ensures { ended result stack.new list.new ≡ ended_of (plain_parse (record { terminals = terminals; symbols = symbols; rules = rules }) states left.now lens.now rights.now table.now srule.now sgoto.now tokens.now limit stack.old list.old) }
{
    let sizes = Sizes {
        terminals,
        symbols,
        rules,
    };
    let grammar = Grammar {
        sizes,
        left,
        lens,
        rights,
    };
    let table = Table {
        states,
        entries: table,
    };
    let signing = Signing {
        rules: srule,
        targets: sgoto,
    };
    machine::plain::plain_parse(grammar, table, signing, tokens, limit, stack, list).into()
}
