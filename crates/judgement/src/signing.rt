// SIGN: the lowest bad state, else the lowest bad nonterminal, of a signing.
ghost use Rattle.std.specs.Prelude.{◌≡◌, ◌≤◌, ◌<◌, IfSome, length, not, position};
ghost use Rattle.tables.specs.Signing.{good_signature, lowest_target};

use tables::Sizes;

// r is no rule or one that may be signed.
#[tactic(auto, using(std::proofs::lemmas::Bool::Decides::nat_tests), unfolding(tables::specs::Signing::good_signature))]
fn signature_good(z: Sizes, r: u32) -> bool
    ensures { result ≡ good_signature z r }
{
    r == 0 || (2..=z.rules).contains(&r)
}

// The lowest state whose signed rule is bad.
pub(crate) fn lowest_state(z: Sizes, rules: &[u32]) -> Option<usize>
    ensures { result ≡ position (λ r. not (good_signature z r)) rules.now }
{
    rules.iter().position(|r| !signature_good(z, *r))
}

// The lowest nonterminal, counted from T, whose signed state is bad.
pub(crate) fn lowest_target(states: u32, targets: &[u32]) -> Option<usize>
    requires { states ≤ 1024 }
    ensures lowest { result ≡ lowest_target states targets.now }
    ensures below { IfSome result (λ i. i < length targets.now) }
{
    // No heap: the states that were seen are flags in the frame.
    let mut seen = [false; 1024];
    for (i, t) in targets.iter().enumerate() {
        let t = *t as usize;
        if t == 0 {
            continue;
        }
        if i == 0 || states as usize <= t || seen[t] {
            return Some(i);
        }
        seen[t] = true;
    }
    None
}
