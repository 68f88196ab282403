// One leg of a Survex text: five fields, its numbers, and the shot that it gives (document 02, Job 12).
ghost use Rattle.std.specs.Prelude.{◌*◌, ◌^◌, ◌≤◌, ◌<◌, ◌≡◌, ◌&&◌, not, leb, ltb};
ghost use Rattle.text.specs.Limits.{most_digits};
ghost use Rattle.text.specs.Fields.{Spells};
ghost use Rattle.survex_reader.specs.Limits.{tape_decimals, most_tape, compass_turn};
ghost use Rattle.survex_reader.specs.Legs.{words, word_at, digits_up_to, Reads, level, step_of, read_leg, code_of, leg_in, leg_at};
ghost use Rattle.survex_reader.specs.Private.{Fielded, FieldsAt, DecimalsOf, NumbersOf};

use crate::lines::skip_blanks;
use job_lines::Shot;
use noisy_shot::TURN_STEPS;
use text::field::{Place, digits_value, name_at, part};
use text::line::scan;

// The digits before the point.
pub const WHOLE_DIGITS: usize = 4;

// The decimals of a tape, in metres, and of a compass, in degrees.
pub const TAPE_DECIMALS: usize = 3;

pub const COMPASS_DECIMALS: usize = 2;

// The longest tape, in mm.
pub const MOST_TAPE: u64 = 1000000;

// A turn of the compass, in hundredths of a degree.
pub const COMPASS_TURN: u64 = 36000;

// The five fields of a leg.
#[derive(Clone, Copy)]
pub struct LegFields {
    pub from: Place,
    pub to: Place,
    pub tape: Place,
    pub compass: Place,
    pub clino: Place,
}

// The numbers of a leg: the tape in mm and the compass in hundredths of a degree.
#[derive(Clone, Copy)]
pub struct LegNumbers {
    pub tape: u64,
    pub compass: u64,
}

// Why a line is no leg: its form, or that of a name or number; a number out of range, or another clino.
#[derive(Clone, Copy)]
pub enum LegRefusal {
    Form = 21,
    Range = 22,
}

impl LegRefusal {
    // Its code. Each error enum has its own, for the reason in codes.rt of streams.
    pub fn code(self) -> u32
        ensures { result ≡ code_of self }
    {
        self as u32
    }
}

// The field after the blanks from a place on. A text and a place, as `skip_blanks` takes them.
fn word_at(line: &[u8], at: usize) -> Place
    ensures { result ≡ word_at line.now at }
{
    let from = skip_blanks(line, at);
    Place {
        from,
        to: scan(line, from, b" \t"),
    }
}

fn is_last(last: Place, more: Place) -> bool
    ensures { result ≡ ltb last.from last.to && not (ltb more.from more.to) }
{
    last.from < last.to && more.to <= more.from
}

// The fields of a line, where there are just five.
fn fields_of(line: &[u8]) -> Option<LegFields>
    ensures { Fielded line.now result }
{
    let from = word_at(line, 0);
    let to = word_at(line, from.to);
    let tape = word_at(line, to.to);
    let compass = word_at(line, tape.to);
    let clino = word_at(line, compass.to);
    let more = word_at(line, clino.to);
    if !is_last(clino, more) {
        return None;
    }
    Some(LegFields {
        from,
        to,
        tape,
        compass,
        clino,
    })
}

// The number that 1 to `most` digits spell.
fn digits_up_to(part: &[u8], most: usize) -> Option<u64>
    requires { most ≤ most_digits }
    ensures { Spells (digits_up_to most part.now) part.now result }
{
    if part.is_empty() {
        return None;
    }
    if most < part.len() {
        return None;
    }
    digits_value(part)
}

// The decimals after a point, at most so many, in units of the last of these; 0 where the point is the end.
fn decimals_after(part: &[u8], point: usize, most: usize) -> Option<u64>
    requires { most ≤ tape_decimals }
    ensures { DecimalsOf most part.now point result }
{
    let n = part.len();
    if n <= point {
        return Some(0);
    }
    let start = point + 1;
    let digits = digits_up_to(&part[start..n], most)?;
    let zeros = most - (n - start);
    Some(digits * 10_u64.pow(zeros as u32))
}

// A number of at most so many decimals, in units of the last of these.
fn decimal_of(part: &[u8], most: usize) -> Option<u64>
    requires { most ≤ tape_decimals }
    ensures { Reads most part.now result }
{
    let point = scan(part, 0, b".");
    let whole = digits_up_to(&part[0..point], WHOLE_DIGITS)?;
    let fraction = decimals_after(part, point, most)?;
    Some(whole * 10_u64.pow(most as u32) + fraction)
}

// The numbers of five fields, where these and the names have their form.
fn numbers_of(line: &[u8], f: LegFields) -> Option<LegNumbers>
    requires { FieldsAt line.now f }
    ensures { NumbersOf (words line.now) result }
{
    if !name_at(line, f.from) {
        return None;
    }
    if !name_at(line, f.to) {
        return None;
    }
    let tape = decimal_of(part(line, f.tape), TAPE_DECIMALS)?;
    let compass = decimal_of(part(line, f.compass), COMPASS_DECIMALS)?;
    Some(LegNumbers { tape, compass })
}

// Whether a clino is the single digit 0.
fn is_level(part: &[u8]) -> bool
    ensures { result ≡ level part.now }
{
    part == b"0".as_slice()
}

// Two limits by `<=`: as ranges from 0, `(0..=MOST_TAPE).contains(&tape)`, they would say no more.
fn is_in_range(tape: u64, compass: u64) -> bool
    ensures { result ≡ leb tape most_tape && leb compass compass_turn }
{
    tape <= MOST_TAPE && compass <= COMPASS_TURN
}

// The nearest of the steps of a turn, halves up; a whole turn is 0.
fn step_of(compass: u64) -> u64
    requires { compass ≤ compass_turn }
    ensures { result ≡ step_of compass }
{
    (2 * (compass * TURN_STEPS) + COMPASS_TURN) / (2 * COMPASS_TURN) % TURN_STEPS
}

// What the line of a leg says, once comments and the blanks at its ends are passed over.
pub fn leg_of(line: &[u8]) -> Result<Shot, LegRefusal>
    ensures says { leg_in line.now result ≡ read_leg (words line.now) }
    ensures exact { result ≡ leg_at line.now (read_leg (words line.now)) }
{
    let f = fields_of(line).ok_or(LegRefusal::Form)?;
    let n = numbers_of(line, f).ok_or(LegRefusal::Form)?;
    let clino = f.clino;
    if !is_in_range(n.tape, n.compass) {
        return Err(LegRefusal::Range);
    }
    if !is_level(part(line, clino)) {
        return Err(LegRefusal::Range);
    }
    let from = f.from;
    let to = f.to;
    Ok(Shot {
        from,
        to,
        distance: n.tape,
        bearing: step_of(n.compass),
    })
}
