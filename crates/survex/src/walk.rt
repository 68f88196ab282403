// A Survex text from its first line to its last.
ghost use Rattle.std.specs.Prelude.{◌≡◌, drop};
ghost use Rattle.text.specs.Scan.{lines};
ghost use Rattle.text.specs.Forms.{read_form};
ghost use Rattle.survex_reader.specs.Legs.{words, read_leg};
ghost use Rattle.survex.specs.Survex.{found, data_form, survex_of, legs_from, answer_in};
ghost use Rattle.survex.specs.Private.{grown_of, put_of, Takes, DataFound, Starts, Converts};

use crate::refusal::{BadLine, Refusal};
use job_lines::write::shot_line;
use survex_reader::leg::{LegRefusal, leg_of};
use survex_reader::lines::line_from;
use text::buffer::put;

// Where the legs begin, and the number of their first line.
#[derive(Clone, Copy)]
pub struct Start {
    pub at: usize,
    pub line: usize,
}

// So many bytes more, where they fit the room.
fn grown(room: usize, m: Option<usize>, n: usize) -> Option<usize>
    ensures { result ≡ grown_of room m n }
{
    let used = m?;
    let left = room.checked_sub(used)?;
    left.checked_sub(n)?;
    Some(used + n)
}

// The buffer and the count apart, here and below, as in shot.rt of job: the legs are measured against the room, and the buffer may be shorter.
// One leg: its shot line, as much of it as fits the buffer, and how many bytes the legs so far have, where they fit the room.
fn take_leg(
    line: &[u8],
    number: usize,
    room: usize,
    m: Option<usize>,
    out: &mut [u8],
) -> Result<Option<usize>, BadLine>
    ensures { Takes (read_leg (words line.now)) number room m result out.old out.new }
{
    let leg = leg_of(line).map_err(|cause| BadLine {
        cause,
        line: number,
    })?;
    let shot = shot_line(line, leg);
    put_at(out, m, shot.as_slice());
    Ok(grown(room, m, shot.length))
}

// Bytes after those so far, where these fit.
fn put_at(out: &mut [u8], m: Option<usize>, bytes: &[u8])
    ensures { out.new ≡ put_of out.old m bytes.now }
{
    if let Some(used) = m {
        put(out, used, bytes);
    }
}

// Whether a line is the data line.
fn is_data(line: &[u8]) -> bool
    ensures { result ≡ found (read_form data_form line.now) }
{
    line == b"*data normal from to tape compass clino".as_slice()
}

// The first line that remains, which is the data line: where the legs after it begin, or its number where it is none.
fn data_line(text: &[u8]) -> Result<Start, BadLine>
    ensures { DataFound text.now result }
{
    let l = line_from(text, 0);
    let line = l.passed + 1;
    let bad = BadLine {
        cause: LegRefusal::Form,
        line,
    };
    let Some(kept) = l.line else {
        return Err(bad);
    };
    if !kept.fed {
        return Err(bad);
    }
    if !is_data(&text[kept.from..kept.to]) {
        return Err(bad);
    }
    Ok(Start {
        at: l.next,
        line: line + 1,
    })
}

// The legs from a place on.
fn walk(text: &[u8], first: Start, room: usize, out: &mut [u8]) -> Result<usize, Refusal>
    requires { Starts text.now first.at first.line }
    ensures { Converts (legs_from first.line (lines (drop first.at text.now))) room (answer_in result) out.old out.new }
{
    let mut at = first.at;
    let mut line = first.line;
    let mut m = Some(0);
    // No `for`: the reader that document 02, Job 12, names hands out a line with its place, and tells how many it passed over,
    // which count.
    loop {
        let l = line_from(text, at);
        let Some(kept) = l.line else {
            return m.ok_or(Refusal::TooLong);
        };
        line += l.passed;
        if !kept.fed {
            return Err(Refusal::Line(BadLine {
                cause: LegRefusal::Form,
                line,
            }));
        }
        m = take_leg(&text[kept.from..kept.to], line, room, m, out)?;
        line += 1;
        at = l.next;
    }
}

// Converts a text, measured against a room; where it fits that room, the buffer has as much of it as fits there.
pub fn convert(text: &[u8], room: usize, out: &mut [u8]) -> Result<usize, Refusal>
    ensures { Converts (survex_of text.now) room (answer_in result) out.old out.new }
{
    let first = data_line(text)?;
    walk(text, first, room, out)
}
