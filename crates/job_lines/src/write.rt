// A job's shot line, written (document 02, Job 12). `length_in_bounds` says `within` of `Written` again, for the proofs that cite it.
ghost use Rattle.std.specs.Prelude.{◌≤◌, length, replicate};
ghost use Rattle.text.specs.Buffer.{Puts};
ghost use Rattle.job_lines.specs.Forms.{shot_in, print_line};
ghost use Rattle.job_lines.specs.Room.{shot_room};

use crate::Shot;
use text::buffer::Writer;
use text::field::part;
use text::written::Written;

// The room of the longest shot line: two names of 12, a distance of 7 digits, a bearing of 5, and what stands between.
pub const SHOT_ROOM: usize = 47;

// The shot line of a shot whose names stand in a line of the caller's text, as much of it as the room takes.
pub fn shot_line(line: &[u8], s: Shot) -> Written<SHOT_ROOM>
    ensures puts { Puts (replicate shot_room 0) 0 (print_line (shot_in line.now s)) result.length result.bytes }
    ensures length_in_bounds { result.length ≤ length result.bytes }
{
    let from = s.from;
    let to = s.to;
    let mut bytes = [0u8; SHOT_ROOM];
    let mut writer = Writer::new(&mut bytes);
    writer.put(b"(shot ");
    writer.put_field(part(line, from), b' ');
    writer.put_field(part(line, to), b' ');
    writer.put_decimal(s.distance, b' ');
    writer.put_decimal(s.bearing, b')');
    writer.put_byte(b'\n');
    let length = writer.at;
    Written { length, bytes }
}
