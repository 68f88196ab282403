// Why a loop is not played.
ghost use Rattle.std.specs.Prelude.{◌≡◌, Err};
ghost use Rattle.play.specs.Private.{answer_in};
ghost use Rattle.play.specs.declared.refusal.Refusal.TheVariants.{Job};

use crate::PlayAnswer;
use job_reader::refusals;

// By its job, or since the count of a record has no room for the pairs of all plays.
#[derive(Clone, Copy, PartialEq, Eq)]
pub enum Refusal {
    Job(refusals::Refusal),
    NoRoom,
}

impl Refusal {
    pub fn answer(self) -> PlayAnswer
        ensures { result ≡ answer_in (Err self) }
    {
        match self {
            Refusal::Job(refused) => PlayAnswer {
                code: refused.code(),
                line: refused.line(),
            },
            Refusal::NoRoom => PlayAnswer { code: 13, line: 0 },
        }
    }
}

impl From<refusals::Refusal> for Refusal {
    ghost from_gives = { λ refused refusal. refusal ≡ Job refused };

    fn from(refused: refusals::Refusal) -> Refusal {
        Refusal::Job(refused)
    }
}
