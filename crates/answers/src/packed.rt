// What packing says, as numbers.
ghost use Rattle.std.specs.Prelude.{◌≡◌};
ghost use Rattle.packing.specs.Packing.{refused};
ghost use Rattle.answers.specs.Answer.{answer_of};

use crate::Answer;
use crate::words::bare;
use packing::PackRefusal;

// The number and the values of what packing refuses.
impl From<PackRefusal> for Answer {
    ghost from_gives = { λ e a. a ≡ answer_of (refused e) };

    fn from(e: PackRefusal) -> Answer {
        match e {
            PackRefusal::Judged(e) => e.into(),
            PackRefusal::NoRoom => bare(5),
        }
    }
}
