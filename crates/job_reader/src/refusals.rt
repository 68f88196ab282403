// Why a job is refused (document 01, the table of causes).
ghost use Rattle.std.specs.Prelude.{◌≡◌};
ghost use Rattle.job_reader.specs.Refusals.{number_of, code_of, line_of};
ghost use Rattle.job_reader.specs.declared.refusals.Refusal.TheVariants.{Line};

// Why a line is refused, under the documents' numbers.
#[derive(Clone, Copy, PartialEq, Eq)]
pub enum Cause {
    // It says none of the three forms, or lacks its line feed.
    NoForm = 6,
    // A number is beyond its range.
    OutOfRange = 7,
    // Its form is in the wrong place, or the text ends before it.
    WrongPlace = 8,
    // It is the 501st shot.
    TooManyShots = 9,
    // A register of stream a is below its minimum.
    FirstStream = 11,
    // A register of stream b is below its minimum.
    SecondStream = 12,
    // Of a loop: its shot does not start where the one before it ended.
    NotFollowing = 23,
}

impl Cause {
    // The number that names the cause.
    // A method of each error enum, and no trait: no function takes two of them.
    pub fn number(self) -> u32
        ensures { result ≡ number_of self }
    {
        self as u32
    }
}

// A line that is refused, and why.
// Each reader has a struct of its own: survex counts its lines by usize, and a generic one would have to say the cause at each use.
#[derive(Clone, Copy, PartialEq, Eq)]
pub struct BadLine {
    pub cause: Cause,
    pub line: u32,
}

// Why a job is refused: by its length, or by a line.
#[derive(Clone, Copy, PartialEq, Eq)]
pub enum Refusal {
    JobTooLong,
    Line(BadLine),
}

impl Refusal {
    // The refusal code.
    pub fn code(self) -> u32
        ensures { result ≡ code_of self }
    {
        match self {
            Refusal::JobTooLong => 5,
            Refusal::Line(bad) => {
                let cause = bad.cause;
                cause.number()
            }
        }
    }

    // The line at fault, 0 where none is.
    // No Option: `line_of` of specs/Refusals.antt, which the `answer_in` of a loop, of a listing and of plays read, says 0.
    pub fn line(self) -> u32
        ensures { result ≡ line_of self }
    {
        match self {
            Refusal::JobTooLong => 0,
            Refusal::Line(bad) => bad.line,
        }
    }
}

impl From<BadLine> for Refusal {
    ghost from_gives = { λ bad refusal. refusal ≡ Line bad };

    fn from(bad: BadLine) -> Refusal {
        Refusal::Line(bad)
    }
}
