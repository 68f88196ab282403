// Level legs from a Survex text, as a job's shot lines (document 02, Job 12).
#![tactic(auto)]

mod refusal;
mod walk;

ghost use Rattle.std.specs.Prelude.{◌≤◌, ◌≡◌, length};
ghost use Rattle.text.specs.Buffer.{Puts};
ghost use Rattle.job.specs.Job.{buffer_after, output_of};
ghost use Rattle.survex.specs.Survex.{survex_of, legs_answer, answer_in};

use crate::refusal::Refusal;
use crate::walk::convert;
use listing_rows::write::put_refused;

// The refusal code, 0 where the text is accepted; the line, 0 where no line is at fault; and the length of the shot lines.
// A code and a line, and no `Result`: `legs_answer` of specs/Survex.antt, which `legs` promises, speaks of this answer.
#[derive(Clone, Copy)]
pub struct LegsAnswer {
    pub code: u32,
    pub line: usize,
    pub length: usize,
}

impl From<Result<usize, Refusal>> for LegsAnswer {
    ghost from_gives = { λ converted answer. answer ≡ answer_in converted };

    fn from(converted: Result<usize, Refusal>) -> LegsAnswer {
        match converted {
            Ok(length) => LegsAnswer {
                code: 0,
                line: 0,
                length,
            },
            Err(Refusal::Line(bad)) => LegsAnswer {
                code: bad.cause.code(),
                line: bad.line,
                length: 0,
            },
            Err(Refusal::TooLong) => LegsAnswer {
                code: 10,
                line: 0,
                length: 0,
            },
        }
    }
}

// The length of the shot lines of a text's legs. They are measured first, by way of a spare byte, so that the caller's buffer is written only where they
// fit.
fn written(text: &[u8], out: &mut [u8]) -> Result<usize, Refusal>
    ensures answer { answer_in result ≡ legs_answer (survex_of text.now) (length out.old) }
    ensures buffer { out.new ≡ buffer_after (survex_of text.now) out.old }
{
    let room = out.len();
    let mut spare = [0u8; 1];
    convert(text, room, &mut spare)?;
    convert(text, room, out)
}

// Writes the shot lines of a text's legs.
pub fn legs(text: &[u8], out: &mut [u8]) -> LegsAnswer
    ensures answer { result ≡ legs_answer (survex_of text.now) (length out.old) }
    ensures buffer { out.new ≡ buffer_after (survex_of text.now) out.old }
    ensures length_in_bounds { result.length ≤ length out.old }
{
    LegsAnswer::from(written(text, out))
}

// Writes what the program `legs` prints, the shot lines or why the text is refused, and returns its length.
pub fn print_legs(text: &[u8], out: &mut [u8]) -> usize
    ensures puts { Puts out.old 0 (output_of (survex_of text.now) (length out.old)) result out.new }
    ensures upper_bound { result ≤ length out.new }
{
    let answer = legs(text, out);
    // By the answer: a `match` on what `written` gives would say the code and the line of each refusal once more.
    if answer.code == 0 {
        return answer.length;
    }
    put_refused(out, answer.code, answer.line as u64)
}
