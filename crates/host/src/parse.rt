// The parser over cells, exported. C lends numbers and slices, so they stand apart here.
ghost use Rattle.std.specs.Prelude.{◌≡◌};
ghost use Rattle.parser.specs.Outcome.{packed_parse};
ghost use Rattle.answers.specs.Ended.{ended, ended_of};

use answers::ParseAnswer;
use cells::reading::Cells;
use tables::{Grammar, Sizes};

// Parses the tokens with the cells: OK, or a refusal 1, 2 or 7 to 14.
#[unsafe(no_mangle)]
pub extern "C" fn slettrein_parse(
    terminals: u32,
    symbols: u32,
    rules: u32,
    left: &[u32],
    lens: &[u32],
    rights: &[u32],
    base: &[i32],
    check: &[i32],
    tokens: &[u32],
    limit: u32,
    stack: &mut [u32],
    list: &mut [u32],
) -> ParseAnswer
    ensures { ended result stack.new list.new ≡ ended_of (packed_parse (record { terminals = terminals; symbols = symbols; rules = rules }) left.now lens.now rights.now base.now check.now tokens.now limit stack.old list.old) }
{
    let sizes = Sizes {
        terminals,
        symbols,
        rules,
    };
    let grammar = Grammar {
        sizes,
        left,
        lens,
        rights,
    };
    let cells = Cells { base, check };
    parser::parse::parse(grammar, cells, tokens, limit, stack, list).into()
}
