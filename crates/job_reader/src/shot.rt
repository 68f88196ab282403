// One line of a loop: its link to the line before, and its shot kept.
ghost use Rattle.std.specs.Prelude.{◌≡◌, cond, set, None};
ghost use Rattle.job_lines.specs.Forms.{shot_in, read_line};
ghost use Rattle.job_reader.specs.Setting.{begun, progress_on};
ghost use Rattle.job_reader.specs.Refusals.{refusal};
ghost use Rattle.job_reader.specs.Private.{first_unlinked, Keeps, Takes};

use crate::loops::LoopShot;
use crate::refusals::BadLine;
use crate::walk::{Progress, first_progress, read_on};
use job_lines::link::follows;
use job_lines::{Line, Shot};
use text::field::part;

// How far the job is read; the last station, nothing before the shots; and the line of the first shot that does not start there.
// An empty slice for no station, as `follows` of job_lines takes it.
#[derive(Clone, Copy)]
pub struct State<'a> {
    pub read: Progress,
    pub station: &'a [u8],
    pub unlinked: Option<u32>,
}

// Before line 1.
pub fn first_state(nothing: &[u8]) -> State
    ensures { (result.read ≡ begun) × (result.station.now ≡ nothing.now) × (result.unlinked ≡ None) }
{
    let read = first_progress();
    State {
        read,
        station: nothing,
        unlinked: None,
    }
}

// The line that was first unlinked, or this one where its shot does not follow.
fn first_unlinked(unlinked: Option<u32>, line: u32, linked: bool) -> Option<u32>
    ensures { result ≡ first_unlinked unlinked line (cond linked 0 23) }
{
    if linked {
        return unlinked;
    }
    unlinked.or(Some(line))
}

// A shot is kept where there is room.
fn keep(shots: &mut [LoopShot], i: usize, shot: LoopShot)
    ensures { shots.new ≡ set shots.old i shot }
{
    if i < shots.len() {
        shots[i] = shot;
    }
}

// An accepted shot, with the progress after it.
fn on_shot<'a>(
    line: &'a [u8],
    x: Shot,
    s: State<'a>,
    next: Progress,
    shots: &mut [LoopShot],
) -> State<'a>
    requires { (refusal s.read.line (shot_in line.now x) ≡ 0) × (next ≡ progress_on (shot_in line.now x) s.read) }
    ensures { Keeps (shot_in line.now x) s.entry result shots.old shots.new }
{
    let linked = follows(s.station, part(line, x.from));
    let number = s.read.line;
    let unlinked = first_unlinked(s.unlinked, number, linked);
    let kept = LoopShot {
        distance: x.distance as u32,
        bearing: x.bearing as u32,
    };
    keep(shots, (number - 3) as usize, kept);
    State {
        read: next,
        station: part(line, x.to),
        unlinked,
    }
}

// One line of a job. No station is left by a line before the shots.
pub fn take_line<'a>(
    line: &'a [u8],
    s: State<'a>,
    shots: &mut [LoopShot],
) -> Result<State<'a>, BadLine>
    ensures { Takes (read_line line.now) s.entry result shots.old shots.new }
{
    let step = read_on(line, s.read)?;
    let next = step.next;
    if let Line::Shot(shot) = step.says {
        return Ok(on_shot(line, shot, s, next, shots));
    }
    Ok(State {
        read: next,
        station: &line[0..0],
        unlinked: s.unlinked,
    })
}
