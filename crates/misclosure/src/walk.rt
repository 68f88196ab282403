// All lines of a listing of either kind: the header, line after line, the end.
ghost use Rattle.std.specs.Prelude.{◌≡◌, [], pos};
ghost use Rattle.text.specs.Scan.{lines};
ghost use Rattle.listing_rows.specs.Entries.{two_readings};
ghost use Rattle.misclosure.specs.Misclosure.{listing_of, outcome, both_ends};
ghost use Rattle.misclosure.specs.declared.entry.Cause.TheVariants.{Misplaced};
ghost use Rattle.misclosure.specs.Private.{sums_of, sums_in, end_sums};

use crate::Ends;
use crate::entry::{Cause, take_line};
use crate::state::{State, Totals};
use listing_rows::read::{Kind, is_header};
use text::line::{Lines, lines_of};

// The first line that is refused, and why.
// A struct of its own, as in job_reader and survex: the causes differ, and survex counts the lines of a text of any length by usize.
#[derive(Clone, Copy)]
pub struct BadLine {
    pub cause: Cause,
    pub line: u32,
}

// Where another line has to stand, or none.
fn misplaced(line: u32) -> BadLine
    ensures { result ≡ record { cause = Misplaced; line = line } }
{
    BadLine {
        cause: Cause::Misplaced,
        line,
    }
}

// The end in its place: no line may follow.
fn ended(s: State, mut rest: Lines) -> Result<Totals, BadLine>
    ensures { sums_in result ≡ end_sums s.entry (lines rest.entry.rest.now) }
{
    if rest.next().is_some() {
        return Err(misplaced(s.line + 1));
    }
    Ok(Totals {
        east: s.east,
        north: s.north,
    })
}

// Before line 2.
fn first_state<'a>() -> State<'a>
    ensures { (result.line ≡ 2) × (result.station.now ≡ []) × (result.east ≡ both_ends (pos 0)) × (result.north ≡ both_ends (pos 0)) }
{
    let none = Ends { low: 0, high: 0 };
    State {
        line: 2,
        station: b"",
        east: none,
        north: none,
    }
}

// The lines from line 2 on.
fn walk(mut rest: Lines, kind: Kind) -> Result<Totals, BadLine>
    ensures { sums_in result ≡ sums_of (outcome (two_readings kind) 2 [] (lines rest.entry.rest.now)) }
{
    let mut s = first_state();
    while let Some(line) = rest.next() {
        let taken = take_line(line, kind, s).map_err(|cause| BadLine {
            cause,
            line: s.line,
        })?;
        match taken {
            Some(next) => s = next,
            None => return ended(s, rest),
        }
    }
    Err(misplaced(s.line))
}

// The sums of a listing of a kind.
pub fn read_listing(text: &[u8], kind: Kind) -> Result<Totals, BadLine>
    ensures { sums_in result ≡ sums_of (listing_of (two_readings kind) text.now) }
{
    let mut rest = lines_of(text);
    let Some(header) = rest.next() else {
        return Err(misplaced(1));
    };
    if !is_header(header, kind) {
        return Err(misplaced(1));
    }
    walk(rest, kind)
}
