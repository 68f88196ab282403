// Why a Survex text is refused (document 02, Job 12).
ghost use Rattle.std.specs.Prelude.{◌≡◌};
ghost use Rattle.survex.specs.declared.refusal.Refusal.TheVariants.{Line};

use survex_reader::leg::LegRefusal;

// A line that is refused, and why.
// A struct of its own: job_reader counts the lines of a job by u32, and a text may have any number of them.
#[derive(Clone, Copy)]
pub struct BadLine {
    pub cause: LegRefusal,
    pub line: usize,
}

// By a line, or since its shot lines are longer than the caller's buffer.
#[derive(Clone, Copy)]
pub enum Refusal {
    Line(BadLine),
    TooLong,
}

impl From<BadLine> for Refusal {
    ghost from_gives = { λ bad refusal. refusal ≡ Line bad };

    fn from(bad: BadLine) -> Refusal {
        Refusal::Line(bad)
    }
}
