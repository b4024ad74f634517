// GRAMMAR: the lowest bad rule.
ghost use Rattle.std.specs.Prelude.{◌≡◌, true, ◌<◌, IfSome};
ghost use Rattle.std.specs.List.{list_all};
ghost use Rattle.tables.specs.Size.{grammar_fits};
ghost use Rattle.tables.specs.Grammar.{inner, on_right, good_sides, lowest_rule};

use tables::{Grammar, Sizes};

// x is a nonterminal other than the start symbol.
#[tactic(auto, using(std::proofs::lemmas::Bool::Decides::nat_tests), unfolding(tables::specs::Grammar::inner))]
fn is_inner(z: Sizes, x: u32) -> bool
    ensures { result ≡ inner z x }
{
    z.terminals < x && x < z.symbols
}

// x may stand on a right side.
#[tactic(auto, using(std::proofs::lemmas::Bool::Decides::nat_tests), unfolding(tables::specs::Grammar::on_right))]
fn may_be_right(z: Sizes, x: u32) -> bool
    ensures { result ≡ on_right z x }
{
    0 < x && x < z.symbols && x != z.terminals
}

// Every symbol of a right side may stand there.
fn right_good(z: Sizes, right: &[u32]) -> bool
    ensures { result ≡ list_all (on_right z) right.now }
{
    right.iter().all(|x| may_be_right(z, *x))
}

// The sides of a rule are good; `first` says that it is rule 1, a test's answer as `good_sides` takes it.
#[tactic(auto, using(tables::specs::Laws::Lists::all_is, std::proofs::lemmas::Bool::Decides::nat_tests), unfolding(tables::specs::Grammar::good_sides))]
fn sides_good(z: Sizes, first: bool, left: u32, right: &[u32]) -> bool
    ensures { result ≡ good_sides z first left right.now }
{
    if first {
        left == z.terminals && (right.len() == 1 && is_inner(z, right[0]))
    } else {
        is_inner(z, left) && right_good(z, right)
    }
}

// The lowest bad rule, counted from 0.
pub(crate) fn lowest_rule(grammar: Grammar) -> Option<usize>
    requires { grammar_fits grammar.sizes grammar.left.now grammar.lens.now grammar.rights.now ≡ true }
    ensures lowest { result ≡ lowest_rule grammar.entry.sizes grammar.entry.left.now grammar.entry.lens.now grammar.entry.rights.now }
    ensures below { IfSome result (λ i. i < grammar.entry.sizes.rules) }
{
    // The right sides stand one after the other, so where the next one begins goes along; the table check's walk over rules keeps other facts than this one.
    let mut from = 0;
    for (i, n) in grammar.lens.iter().enumerate() {
        let to = from + *n as usize;
        if !sides_good(
            grammar.sizes,
            i == 0,
            grammar.left[i],
            &grammar.rights[from..to],
        ) {
            return Some(i);
        }
        from = to;
    }
    None
}
