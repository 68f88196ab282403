// Why a job is not listed (document 01, the table of causes).
ghost use Rattle.std.specs.Prelude.{◌≡◌};
ghost use Rattle.job_reader.specs.declared.refusals.Refusal.TheVariants.{Line};
ghost use Rattle.job.specs.Refusals.{code_of, line_of};
ghost use Rattle.job.specs.declared.refusal.Refusal.TheVariants.{Job};

use job_reader::refusals;
use job_reader::refusals::BadLine;

// By the job itself, or since its listing is longer than the caller's buffer.
#[derive(Clone, Copy, PartialEq, Eq)]
pub enum Refusal {
    Job(refusals::Refusal),
    ListingTooLong,
}

impl Refusal {
    // The refusal code.
    pub fn code(self) -> u32
        ensures { result ≡ code_of self }
    {
        match self {
            Refusal::Job(refused) => refused.code(),
            Refusal::ListingTooLong => 10,
        }
    }

    // The line at fault, 0 where none is; no Option, as in job_reader.
    pub fn line(self) -> u32
        ensures { result ≡ line_of self }
    {
        match self {
            Refusal::Job(refused) => refused.line(),
            Refusal::ListingTooLong => 0,
        }
    }
}

impl From<BadLine> for Refusal {
    ghost from_gives = { λ bad refusal. refusal ≡ Job (Line bad) };

    fn from(bad: BadLine) -> Refusal {
        Refusal::Job(refusals::Refusal::Line(bad))
    }
}
