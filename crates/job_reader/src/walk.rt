// The walk through a job's lines (document 01, "A job and its listing"): each line is refused with its cause, or says what it says and leaves the setting
// after it. Checking, listing and playing are what their loops do with it.
ghost use Rattle.std.specs.Prelude.{◌+◌, ◌≡◌, [], List, ℕ, IfOk};
ghost use Rattle.job_lines.specs.Forms.{seeds_in, sigma_in, shot_in, line_says};
ghost use Rattle.job_reader.specs.Refusals.{first_bad, verdict_in};
ghost use Rattle.job_reader.specs.Setting.{start, begun, ReadsOn};
ghost use Rattle.job_reader.specs.Private.{SetBy};

use crate::limits::{LAST_LINE, MOST_BEARING, MOST_DISTANCE, MOST_SIGMA};
use crate::refusals::{BadLine, Cause};
use crate::seeds::seeded;
use job_lines::{Line, Seeds, Shot, Sigma, read_line};
use streams::Generator;

// The generator record and the sigmas.
// No struct of the two sigmas: `start` and `setting_on` of specs/Setting.antt build the setting by these members.
#[derive(Clone, Copy)]
pub struct Setting {
    pub generator: Generator,
    pub distance: u32,
    pub bearing: u32,
}

// A job read so far, every line of it accepted: the number of the next line, and the setting before it.
#[derive(Clone, Copy)]
pub struct Progress {
    pub line: u32,
    pub setting: Setting,
}

// An accepted line: what it says, and the progress after it.
#[derive(Clone, Copy)]
pub struct Step {
    pub says: Line,
    pub next: Progress,
}

// A refused line: what it says, where it is of a form, and why it is refused. The progress stays the caller's.
#[derive(Clone, Copy)]
pub struct Refused {
    pub says: Option<Line>,
    pub bad: BadLine,
}

impl From<Refused> for BadLine {
    ghost from_gives = { λ refused bad. bad ≡ refused.bad };

    fn from(refused: Refused) -> BadLine {
        refused.bad
    }
}

// Before line 1.
pub fn first_setting() -> Setting
    ensures { result ≡ start }
{
    let seeded = Generator::seed(0, 0, 0, 0, 0, 0);
    let generator = seeded.next;
    Setting {
        generator,
        distance: 0,
        bearing: 0,
    }
}

fn on_seeds(x: Seeds, p: Progress) -> Result<Setting, Cause>
    ensures { SetBy (seeds_in x) p.line p.setting result }
{
    if p.line != 1 {
        return Err(Cause::WrongPlace);
    }
    let generator = seeded(x)?;
    let setting = p.setting;
    Ok(Setting {
        generator,
        ..setting
    })
}

fn on_sigma(x: Sigma, p: Progress) -> Result<Setting, Cause>
    ensures { SetBy (sigma_in x) p.line p.setting result }
{
    if p.line != 2 {
        return Err(Cause::WrongPlace);
    }
    if MOST_SIGMA < x.distance {
        return Err(Cause::OutOfRange);
    }
    if MOST_SIGMA < x.bearing {
        return Err(Cause::OutOfRange);
    }
    let setting = p.setting;
    Ok(Setting {
        distance: x.distance as u32,
        bearing: x.bearing as u32,
        ..setting
    })
}

// A shot's pair is not drawn yet.
fn on_shot(x: Shot, p: Progress) -> Result<Setting, Cause>
    ensures { (text : List ℕ) → SetBy (shot_in text x) p.line p.setting result }
{
    if p.line < 3 {
        return Err(Cause::WrongPlace);
    }
    if LAST_LINE < p.line {
        return Err(Cause::TooManyShots);
    }
    if MOST_DISTANCE < x.distance {
        return Err(Cause::OutOfRange);
    }
    if MOST_BEARING < x.bearing {
        return Err(Cause::OutOfRange);
    }
    Ok(p.setting)
}

// The setting after the next line: no name in it matters.
fn setting_after(x: Line, p: Progress) -> Result<Setting, Cause>
    ensures { (text : List ℕ) → SetBy (line_says text x) p.line p.setting result }
{
    match x {
        Line::Seeds(seeds) => on_seeds(seeds, p),
        Line::Sigma(sigma) => on_sigma(sigma, p),
        Line::Shot(shot) => on_shot(shot, p),
    }
}

// Before line 1.
pub fn first_progress() -> Progress
    ensures { result ≡ begun }
{
    let setting = first_setting();
    Progress { line: 1, setting }
}

// The next line is refused.
fn refuse(says: Option<Line>, cause: Cause, p: Progress) -> Refused
    ensures { result ≡ record { says = says; bad = record { cause = cause; line = p.line } } }
{
    let line = p.line;
    Refused {
        says,
        bad: BadLine { cause, line },
    }
}

// One line: whether it is accepted in its place, what it says, and what it sets.
pub fn read_on(line: &[u8], p: Progress) -> Result<Step, Refused>
    ensures { ReadsOn line.now p result }
{
    let Some(says) = read_line(line) else {
        return Err(refuse(None, Cause::NoForm, p));
    };
    let setting = setting_after(says, p).map_err(|cause| refuse(Some(says), cause, p))?;
    Ok(Step {
        says,
        next: Progress {
            line: p.line + 1,
            setting,
        },
    })
}

impl Progress {
    // After the last line, the number of shots; a text that ends before line 2 lacks its next line.
    pub fn finish(self) -> Result<u32, BadLine>
        ensures verdict { verdict_in result ≡ first_bad self.line [] }
        ensures count { IfOk result (λ n. n + 3 ≡ self.line) }
    {
        if self.line < 3 {
            return Err(BadLine {
                cause: Cause::WrongPlace,
                line: self.line,
            });
        }
        Ok(self.line - 3)
    }
}
