// The rows of a listing, written (document 01, "A job and its listing"). The header and the one line of a refused text are written into the
// caller's buffer; the rows between stand by themselves, with their lengths. `length_in_bounds` says `within` of `Written` again, for the proofs that cite it.
ghost use Rattle.std.specs.Prelude.{◌≡◌, ◌≤◌, min, length, replicate};
ghost use Rattle.text.specs.Buffer.{Puts};
ghost use Rattle.listing_rows.specs.Rows.{header, shot_row, end_row, refused_row, row_room};

use text::buffer::{Writer, decimal_length, put};
use text::written::Written;

// The room of the longest row: two names of 12, a distance of 7 digits, a bearing of 5, and what ends each.
pub const ROW_ROOM: usize = 40;

// What the row of a shot says: the two names, the distance and the bearing.
#[derive(Clone, Copy)]
pub struct Row<'a> {
    pub from: &'a [u8],
    pub to: &'a [u8],
    pub mm: u64,
    pub step: u64,
}

impl<'a> Row<'a> {
    // The row, as much of it as the room takes.
    pub fn written(&self) -> Written<ROW_ROOM>
        ensures puts { Puts (replicate row_room 0) 0 (shot_row self.now.from.now self.now.to.now self.now.mm self.now.step) result.length result.bytes }
        ensures length_in_bounds { result.length ≤ length result.bytes }
    {
        let mut bytes = [0u8; ROW_ROOM];
        let mut writer = Writer::new(&mut bytes);
        writer.put_field(self.from, b' ');
        writer.put_field(self.to, b' ');
        writer.put_decimal(self.mm, b' ');
        writer.put_decimal(self.step, b'\n');
        let length = writer.at;
        Written { length, bytes }
    }

    // The length of that row.
    pub fn length(&self) -> usize
        ensures { result ≡ min (length (shot_row self.now.from.now self.now.to.now self.now.mm self.now.step)) row_room }
    {
        let names = self.from.len() + self.to.len();
        names
            .saturating_add(decimal_length(self.mm) + decimal_length(self.step) + 4)
            .min(ROW_ROOM)
    }
}

// The length of the header.
pub const HEADER_LENGTH: usize = 16;

pub fn put_header(out: &mut [u8]) -> usize
    ensures { Puts out.old 0 header result out.new }
{
    put(out, 0, b"FROM TO MM STEP\n")
}

// The last row of a listing, the count of shots.
pub fn end_row(count: u32) -> Written<ROW_ROOM>
    ensures puts { Puts (replicate row_room 0) 0 (end_row count) result.length result.bytes }
    ensures length_in_bounds { result.length ≤ length result.bytes }
{
    let mut bytes = [0u8; ROW_ROOM];
    let mut writer = Writer::new(&mut bytes);
    writer.put_field(b"END", b' ');
    writer.put_decimal(count as u64, b'\n');
    let length = writer.at;
    Written { length, bytes }
}

// The one line of a refused text.
pub fn put_refused(out: &mut [u8], code: u32, line: u64) -> usize
    ensures { Puts out.old 0 (refused_row code line) result out.new }
{
    let mut writer = Writer::new(out);
    writer.put_field(b"REFUSED", b' ');
    writer.put_decimal(code as u64, b' ');
    writer.put_decimal(line, b'\n');
    writer.at
}
