// The lines of a job. What a line says: one of the three forms, or none (document 01, "A job and its listing").
#![tactic(auto)]

pub mod link;
pub mod write;

ghost use Rattle.std.specs.Prelude.{◌≡◌};
ghost use Rattle.text.specs.Forms.{fields_at};
ghost use Rattle.job_lines.specs.Forms.{seeds_of, sigma_of, shot_of, read_line, said, line_in};
ghost use Rattle.job_lines.specs.Private.{NamesAt};

use text::field::{Place, digit_string_at, name_at, three_at};
use text::form::read_form;

// Line 1: the three registers of each stream.
#[derive(Clone, Copy)]
pub struct Seeds {
    pub a: (u64, u64, u64),
    pub b: (u64, u64, u64),
}

// Line 2: the standard deviations, in mm and in steps.
#[derive(Clone, Copy)]
pub struct Sigma {
    pub distance: u64,
    pub bearing: u64,
}

// A shot: where its names stand in the line, its distance in mm and its bearing in steps. By place and no slice: `shot_in` of specs/Forms.antt reads the names in
// the line.
#[derive(Clone, Copy)]
pub struct Shot {
    pub from: Place,
    pub to: Place,
    pub distance: u64,
    pub bearing: u64,
}

// A line once read, of one of three kinds.
#[derive(Clone, Copy)]
pub enum Line {
    Seeds(Seeds),
    Sigma(Sigma),
    Shot(Shot),
}

// The seeds that six fields give.
fn seeds_line(line: &[u8], places: [Place; 6]) -> Option<Line>
    ensures { said line.now result ≡ seeds_of (fields_at line.now places) }
{
    let first = three_at(line, places[0], places[1], places[2]);
    let a = (first.0?, first.1?, first.2?);
    let second = three_at(line, places[3], places[4], places[5]);
    let b = (second.0?, second.1?, second.2?);
    Some(Line::Seeds(Seeds { a, b }))
}

// The sigmas that two fields give.
fn sigma_line(line: &[u8], places: [Place; 2]) -> Option<Line>
    ensures { said line.now result ≡ sigma_of (fields_at line.now places) }
{
    let distance = digit_string_at(line, places[0])?;
    let bearing = digit_string_at(line, places[1])?;
    Some(Line::Sigma(Sigma { distance, bearing }))
}

// The shot that four fields give.
fn shot_line(line: &[u8], places: [Place; 4]) -> Option<Line>
    ensures says { said line.now result ≡ shot_of (fields_at line.now places) }
    ensures names_at { NamesAt places result }
{
    let from = places[0];
    let to = places[1];
    if !name_at(line, from) {
        return None;
    }
    if !name_at(line, to) {
        return None;
    }
    let distance = digit_string_at(line, places[2])?;
    let bearing = digit_string_at(line, places[3])?;
    Some(Line::Shot(Shot {
        from,
        to,
        distance,
        bearing,
    }))
}

// What a line, with its line feed, says; nothing where it is of no form. No line is of two forms, and most are shots.
pub fn read_line(line: &[u8]) -> Option<Line>
    ensures says { said line.now result ≡ read_line line.now }
    ensures exact { result ≡ line_in line.now (read_line line.now) }
{
    if let Ok(shot) = read_form(b"(shot # # # #)\n", line) {
        return shot_line(line, shot.places);
    }
    if let Ok(seeds) = read_form(b"(seeds (a # # #) (b # # #))\n", line) {
        return seeds_line(line, seeds.places);
    }
    let Ok(sigma) = read_form(b"(sigma # #)\n", line) else {
        return None;
    };
    sigma_line(line, sigma.places)
}
