// A job as a loop to be played many times: its setting and its shots, read once.
ghost use Rattle.std.specs.Prelude.{◌≡◌};
ghost use Rattle.text.specs.Scan.{lines};
ghost use Rattle.job_reader.specs.Loop.{loop_of, answer_of, answer_in, memory_after};
ghost use Rattle.job_reader.specs.Private.{ended_of, ended_in, Ended};

use crate::limits::MOST_BYTES;
use crate::refusals::{BadLine, Cause, Refusal};
use crate::shot::{State, first_state, take_line};
use crate::walk::Setting;
use text::line::lines_of;

// The number of its shots, and its setting, no pair drawn.
// With their number and no part of the caller's slice: where there is less room than shots, `answer_of` of specs/Loop.antt still gives the number of all.
#[derive(Clone, Copy)]
pub struct Loop {
    pub count: usize,
    pub setting: Setting,
}

// One of its shots: its distance in mm, its bearing in steps.
#[derive(Clone, Copy)]
pub struct LoopShot {
    pub distance: u32,
    pub bearing: u32,
}

// After the last line.
fn ended(s: State) -> Result<Loop, BadLine>
    ensures { ended_in result ≡ ended_of s.entry.read s.entry.unlinked }
{
    let read = s.read;
    let count = read.finish()?;
    if let Some(line) = s.unlinked {
        return Err(BadLine {
            cause: Cause::NotFollowing,
            line,
        });
    }
    let setting = read.setting;
    Ok(Loop {
        count: count as usize,
        setting,
    })
}

// The loop that the lines say, its shots kept as far as there is room; or the line that is refused.
fn walk(text: &[u8], shots: &mut [LoopShot]) -> Result<Loop, BadLine>
    ensures { Ended (lines text.now) shots.old shots.new result }
{
    let mut s = first_state(&text[0..0]);
    for line in lines_of(text) {
        s = take_line(line, s, shots)?;
    }
    ended(s)
}

// Reads a loop. Its shots are kept in the caller's memory, as far as there is room.
pub fn read_loop(text: &[u8], shots: &mut [LoopShot]) -> Result<Loop, Refusal>
    ensures answer { answer_in result ≡ answer_of (loop_of text.now) }
    ensures memory { shots.new ≡ memory_after text.now shots.old }
{
    if MOST_BYTES < text.len() {
        return Err(Refusal::JobTooLong);
    }
    Ok(walk(text, shots)?)
}
