// SIZE: the bounds and the lengths.
ghost use Rattle.std.specs.Prelude.{◌≡◌, ◌≤◌, length, sum, nat_le};
ghost use Rattle.tables.specs.Size.{numbers_fit, states_fit, rights_fit, grammar_fits, table_fits, signing_fits, all_fit};
ghost use Rattle.std.specs.List.{list_all};

use crate::{Grammar, Signing, Sizes, Table};

// T, M and G are within their bounds.
#[tactic(auto, using(std::proofs::lemmas::Bool::Decides::nat_tests), unfolding(crate::specs::Size::numbers_fit))]
pub fn numbers_fit(z: Sizes) -> bool
    ensures { result ≡ numbers_fit z }
{
    (2..=256).contains(&z.terminals)
        && (z.terminals + 2..=512).contains(&z.symbols)
        && (1..=1024).contains(&z.rules)
}

// L is within its bounds.
#[tactic(auto, using(std::proofs::lemmas::Bool::Decides::nat_tests), unfolding(crate::specs::Size::states_fit))]
fn states_fit(states: u32) -> bool
    ensures { result ≡ states_fit states }
{
    (2..=1024).contains(&states)
}

// Each right side has at most 64 symbols.
fn all_short(lens: &[u32]) -> bool
    ensures { result ≡ list_all (λ n. nat_le n 64) lens.now }
{
    lens.iter().all(|n| *n <= 64)
}

// How many symbols the right sides have together.
fn total(lens: &[u32]) -> usize
    requires { length lens.now ≤ 1024 }
    ensures { result ≡ sum lens.now }
{
    lens.iter().map(|n| *n as usize).sum()
}

// Each right side has at most 64 symbols, and all of them together are `count` symbols.
#[tactic(auto, using(crate::specs::Laws::Lists::all_is, crate::specs::Laws::Lists::sum_is, std::proofs::lemmas::Bool::Decides::nat_tests), unfolding(crate::specs::Size::rights_fit))]
fn rights_fit(lens: &[u32], count: usize) -> bool
    requires { length lens.now ≤ 1024 }
    ensures { result ≡ rights_fit lens.now count }
{
    all_short(lens) && total(lens) == count
}

// The numbers of a grammar and the lengths of its arrays fit.
#[tactic(auto, using(std::proofs::lemmas::Bool::Decides::nat_tests), unfolding(crate::specs::Size::grammar_fits))]
pub fn grammar_fits(grammar: Grammar) -> bool
    ensures { result ≡ grammar_fits grammar.entry.sizes grammar.entry.left.now grammar.entry.lens.now grammar.entry.rights.now }
{
    numbers_fit(grammar.sizes)
        && (grammar.left.len() == grammar.sizes.rules as usize
            && (grammar.lens.len() == grammar.sizes.rules as usize
                && rights_fit(grammar.lens, grammar.rights.len())))
}

// The table has L x M entries.
#[tactic(auto, unfolding(crate::specs::Size::table_fits))]
fn table_fits(z: Sizes, table: Table) -> bool
    ensures { result ≡ table_fits z table.entry.states table.entry.entries.now }
{
    table.entries.len() == table.states as usize * z.symbols as usize
}

// The signing has an element for each state and one for each nonterminal.
#[tactic(auto, using(std::proofs::lemmas::Bool::Decides::nat_tests), unfolding(crate::specs::Size::signing_fits))]
pub fn signing_fits(z: Sizes, states: u32, signing: Signing) -> bool
    ensures { result ≡ signing_fits z states signing.entry.rules.now signing.entry.targets.now }
{
    numbers_fit(z)
        && (states_fit(states)
            && (signing.rules.len() == states as usize
                && signing.targets.len() == (z.symbols - z.terminals) as usize))
}

// Grammar, table and signing fit.
#[tactic(auto, unfolding(crate::specs::Size::all_fit))]
pub fn all_fit(grammar: Grammar, table: Table, signing: Signing) -> bool
    ensures { result ≡ all_fit grammar.entry.sizes table.entry.states grammar.entry.left.now grammar.entry.lens.now grammar.entry.rights.now table.entry.entries.now signing.entry.rules.now signing.entry.targets.now }
{
    grammar_fits(grammar)
        && signing_fits(grammar.sizes, table.states, signing)
        && table_fits(grammar.sizes, table)
}
