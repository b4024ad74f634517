// The judgement of grammar, table and signing: numbers 1 to 4, in that order.
ghost use Rattle.std.specs.Prelude.{◌≡◌, true};
ghost use Rattle.tables.specs.Judgement.{said_of, grammar_judgement, signing_judgement, sign_judgement, judgement};
ghost use Rattle.tables.specs.Size.{signing_fits};

use crate::entry::lowest_entry;
use crate::grammar::lowest_rule;
use crate::signing::{lowest_state, lowest_target};
use tables::size::{all_fit, grammar_fits, signing_fits};
use tables::{Grammar, Refusal, Signing, Sizes, Table};

// SIZE and GRAMMAR, for what has a grammar alone.
#[tactic(auto, unfolding(tables::specs::Judgement::grammar_judgement))]
pub fn judge_grammar(grammar: Grammar) -> Result<(), Refusal>
    ensures { said_of result ≡ grammar_judgement grammar.entry.sizes grammar.entry.left.now grammar.entry.lens.now grammar.entry.rights.now }
{
    if !grammar_fits(grammar) {
        return Err(Refusal::Size);
    }
    match lowest_rule(grammar) {
        Some(i) => Err(Refusal::Grammar(i + 1)),
        None => Ok(()),
    }
}

// SIGN, the sizes being good.
#[tactic(auto, using(tables::specs::Laws::Signing::lowest_state_is), unfolding(tables::specs::Judgement::sign_judgement))]
fn judge_signatures(z: Sizes, states: u32, signing: Signing) -> Result<(), Refusal>
    requires { signing_fits z states signing.rules.now signing.targets.now ≡ true }
    ensures { said_of result ≡ sign_judgement z states signing.entry.rules.now signing.entry.targets.now }
{
    if let Some(s) = lowest_state(z, signing.rules) {
        return Err(Refusal::State(s));
    }
    match lowest_target(states, signing.targets) {
        Some(i) => Err(Refusal::Nonterminal(z.terminals as usize + i)),
        None => Ok(()),
    }
}

// SIZE and SIGN, for what has a signing alone.
#[tactic(auto, unfolding(tables::specs::Judgement::signing_judgement))]
pub fn judge_signing(z: Sizes, states: u32, signing: Signing) -> Result<(), Refusal>
    ensures { said_of result ≡ signing_judgement z states signing.entry.rules.now signing.entry.targets.now }
{
    if !signing_fits(z, states, signing) {
        return Err(Refusal::Size);
    }
    judge_signatures(z, states, signing)
}

// SIZE, GRAMMAR, ENTRY and SIGN, in this order.
#[tactic(auto, unfolding(tables::specs::Judgement::judgement))]
pub fn judge(grammar: Grammar, table: Table, signing: Signing) -> Result<(), Refusal>
    ensures { said_of result ≡ judgement grammar.entry.sizes table.entry.states grammar.entry.left.now grammar.entry.lens.now grammar.entry.rights.now table.entry.entries.now signing.entry.rules.now signing.entry.targets.now }
{
    if !all_fit(grammar, table, signing) {
        return Err(Refusal::Size);
    }
    if let Some(i) = lowest_rule(grammar) {
        return Err(Refusal::Grammar(i + 1));
    }
    if let Some(i) = lowest_entry(grammar.sizes, table) {
        return Err(Refusal::Entry(i));
    }
    judge_signatures(grammar.sizes, table.states, signing)
}
