// The table check: whether every path of the unsigned table keeps what its filled rows reduce by.
#![tactic(auto)]

ghost use Rattle.std.specs.Prelude.{◌≡◌};
ghost use Rattle.soundness.specs.declared.CheckRefusal.TheVariants.{Judged};

mod back;
mod paths;
mod row;
mod rule;
pub mod verdict;
mod ways;

use tables::Refusal;

// What the check refuses: what the judgement refuses, or the least state and then rule that fails on some path.
#[derive(Clone, Copy, Debug, PartialEq, Eq)]
pub enum CheckRefusal {
    Judged(Refusal),
    Unsound(u32, u32),
}

impl From<Refusal> for CheckRefusal {
    ghost from_gives = { λ r e. e ≡ Judged r };

    fn from(r: Refusal) -> CheckRefusal {
        CheckRefusal::Judged(r)
    }
}
