// What a line of a listing says: a shot, or the end with its count (document 01, "A job and its listing"; document 02, Jobs 13 and 14).
ghost use Rattle.std.specs.Prelude.{◌≡◌};
ghost use Rattle.text.specs.Forms.{fields_at, read_form, or_else};
ghost use Rattle.listing_rows.specs.Rows.{end_form};
ghost use Rattle.listing_rows.specs.Entries.{two_readings, neither, is_header, leg_of, end_of, read_entry, tells};
ghost use Rattle.listing_rows.specs.Private.{RowAt};

use text::field::{Place, digit_string_at, name_at, three_at};
use text::form::read_form;

// What the distances of a listing are.
#[derive(Clone, Copy)]
pub enum Kind {
    // One a shot.
    OneDistance,
    // The two readings that each lies between.
    TwoReadings,
}

// A shot: where its names stand in the line, its shortest and its longest distance in mm, and its bearing in steps. By place and no slice: `tells` of
// specs/Entries.antt reads the names in the line.
#[derive(Clone, Copy)]
pub struct Span {
    pub from: Place,
    pub to: Place,
    pub low: u64,
    pub high: u64,
    pub step: u64,
}

// A line once read: a shot, or the end with its count.
#[derive(Clone, Copy)]
pub enum Entry {
    Shot(Span),
    End(u64),
}

// Whether a line is the header of a kind.
pub fn is_header(line: &[u8], kind: Kind) -> bool
    ensures { result ≡ is_header (two_readings kind) line.now }
{
    match kind {
        Kind::OneDistance => line == b"FROM TO MM STEP\n".as_slice(),
        Kind::TwoReadings => line == b"FROM TO LOW HIGH STEP\n".as_slice(),
    }
}

// Where the names, the shortest and the longest distance and the bearing of a shot's row stand; one distance is both.
fn row_places(line: &[u8], kind: Kind) -> Option<[Place; 5]>
    ensures { RowAt (two_readings kind) line.now result }
{
    match kind {
        Kind::OneDistance => {
            let Ok(row) = read_form::<4>(b"# # # #\n", line) else {
                return None;
            };
            let places = row.places;
            Some([places[0], places[1], places[2], places[2], places[3]])
        }
        Kind::TwoReadings => {
            let Ok(row) = read_form(b"# # # # #\n", line) else {
                return None;
            };
            Some(row.places)
        }
    }
}

// The shot that five fields give.
fn shot_entry(line: &[u8], places: [Place; 5]) -> Option<Entry>
    ensures { tells line.now result ≡ leg_of 3 (fields_at line.now places) }
{
    let from = places[0];
    let to = places[1];
    if !name_at(line, from) {
        return None;
    }
    if !name_at(line, to) {
        return None;
    }
    let n = three_at(line, places[2], places[3], places[4]);
    Some(Entry::Shot(Span {
        from,
        to,
        low: n.0?,
        high: n.1?,
        step: n.2?,
    }))
}

// The end, with its count.
fn end_entry(line: &[u8]) -> Option<Entry>
    ensures { tells line.now result ≡ or_else (read_form end_form line.now) end_of neither }
{
    let Ok(row) = read_form::<1>(b"END #\n", line) else {
        return None;
    };
    let places = row.places;
    let count = digit_string_at(line, places[0])?;
    Some(Entry::End(count))
}

// What a line after the header, with its line feed, says; nothing where it is neither.
pub fn read_entry(line: &[u8], kind: Kind) -> Option<Entry>
    ensures { tells line.now result ≡ read_entry (two_readings kind) line.now }
{
    if let Some(places) = row_places(line, kind) {
        return shot_entry(line, places);
    }
    end_entry(line)
}
