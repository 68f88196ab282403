// The fields of a line: names and digit strings. Each reader takes the field as a part of the caller's text.
ghost use Rattle.std.specs.Prelude.{◌≤◌, ◌≡◌, length};
ghost use Rattle.text.specs.Limits.{most_digits};
ghost use Rattle.text.specs.Fields.{all, digit, name, digit_string, few_digits, part_of, Spells, SpellThree};

use crate::limits::{MOST_DIGITS, NAME_LENGTH};

// Where a field stands in its line.
// The functions below take the line beside it, and no struct of both: a line's places would each hold the line, and the clauses and docs/DECISIONS.md
// speak of `part`, `name_at` and `digit_string_at`.
#[derive(Clone, Copy)]
pub struct Place {
    pub from: usize,
    pub to: usize,
}

// The field at a place, as a part of the line; nothing where the line is too short for it.
pub fn part(line: &[u8], place: Place) -> &[u8]
    ensures { result.now ≡ part_of line.now place }
{
    line.get(place.from..place.to).unwrap_or(&line[0..0])
}

// Whether a field is a name.
pub fn is_name(part: &[u8]) -> bool
    ensures { result ≡ name part.now }
{
    if part.is_empty() {
        return false;
    }
    if NAME_LENGTH < part.len() {
        return false;
    }
    part.iter().all(|b| b.is_ascii_alphanumeric())
}

// Whether a name stands at a place.
pub fn name_at(line: &[u8], place: Place) -> bool
    ensures { result ≡ name (part_of line.now place) }
{
    is_name(part(line, place))
}

// The number that so few digits spell.
fn spelled(part: &[u8]) -> Option<u64>
    requires { length part.now ≤ most_digits }
    ensures { Spells (all digit part.now) part.now result }
{
    let mut value: u64 = 0;
    for b in part {
        if !b.is_ascii_digit() {
            return None;
        }
        value = value * 10 + (*b - b'0') as u64;
    }
    Some(value)
}

// The number that a field of digits spells, as many digits as a digit string may have; zeros may lead.
pub fn digits_value(part: &[u8]) -> Option<u64>
    ensures { Spells (few_digits part.now) part.now result }
{
    if MOST_DIGITS < part.len() {
        return None;
    }
    spelled(part)
}

// The digit string in a field: digits with no leading zero except 0 itself.
pub fn digit_string_of(part: &[u8]) -> Option<u64>
    ensures { Spells (digit_string part.now) part.now result }
{
    if part.is_empty() {
        return None;
    }
    if part.len() == 1 {
        return digits_value(part);
    }
    if part[0] == b'0' {
        return None;
    }
    digits_value(part)
}

// The digit string at a place.
pub fn digit_string_at(line: &[u8], place: Place) -> Option<u64>
    ensures { Spells (digit_string (part_of line.now place)) (part_of line.now place) result }
{
    digit_string_of(part(line, place))
}

// The digit strings at three places, each told by its own test.
pub fn three_at(
    line: &[u8],
    first: Place,
    second: Place,
    third: Place,
) -> (Option<u64>, Option<u64>, Option<u64>)
    ensures { SpellThree (part_of line.now first) (part_of line.now second) (part_of line.now third) result }
{
    (
        digit_string_at(line, first),
        digit_string_at(line, second),
        digit_string_at(line, third),
    )
}
