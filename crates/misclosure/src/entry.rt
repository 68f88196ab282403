// A listing, line by line: what each line after the header adds, or why it is refused.
ghost use Rattle.std.specs.Prelude.{◌≡◌, ◌≤◌, []};
ghost use Rattle.text.specs.Fields.{part_of};
ghost use Rattle.misclosure.specs.Misclosure.{beyond, refusal};
ghost use Rattle.misclosure.specs.Private.{Limited, number_of, code_in, Takes, Moved, shot_said};
ghost use Rattle.listing_rows.specs.Entries.{two_readings, read_entry, leg, last};

use crate::limits::{LAST_LINE, MOST_DISTANCE, MOST_STEP};
use crate::state::State;
use angle::signed_of;
use job_lines::link::follows;
use listing_rows::read::{Entry, Kind, Span, read_entry};
use text::field::part;

// Why a line is refused, under the documents' numbers.
#[derive(Clone, Copy, PartialEq, Eq)]
pub enum Cause {
    // It is not what has to stand there: the header, a shot, the end with the count of the shots, or nothing.
    Misplaced = 6,
    // Its shot does not start at the last station.
    NotFollowing = 23,
    // It is the 501st shot, a distance is too large, or its step is.
    BeyondLimit = 24,
    // Its low distance is above the high one.
    LowAboveHigh = 25,
}

impl Cause {
    // The number that names the cause. Each error enum has its own, for the reason in codes.rt of streams.
    pub fn number(self) -> u32
        ensures { result ≡ number_of self }
    {
        self as u32
    }
}

#[tactic(auto, unfolding(crate::specs::Misclosure::beyond))]
fn is_beyond(line: u32, x: Span) -> bool
    ensures { result ≡ beyond line x.low x.high x.step }
{
    LAST_LINE < line || MOST_DISTANCE < x.low || MOST_DISTANCE < x.high || MOST_STEP < x.step
}

// The first cause for which a shot from a station is refused, after another.
fn check_shot(line: u32, x: Span, station: &[u8], from: &[u8]) -> Result<(), Cause>
    ensures { code_in result ≡ refusal line station.now (leg from.now [] x.low x.high x.step) }
{
    if is_beyond(line, x) {
        return Err(Cause::BeyondLimit);
    }
    if x.high < x.low {
        return Err(Cause::LowAboveHigh);
    }
    if !follows(station, from) {
        return Err(Cause::NotFollowing);
    }
    Ok(())
}

// A shot within its limits is added.
fn moved<'a>(line: &'a [u8], x: Span, s: State<'a>) -> State<'a>
    requires { Limited s.line x }
    ensures { Moved line.now x s.entry result }
{
    let turned = signed_of(x.step as u32);
    let east = s.east.widened(x.low, x.high, turned.sine);
    let north = s.north.widened(x.low, x.high, turned.cosine);
    State {
        line: s.line + 1,
        station: part(line, x.to),
        east,
        north,
    }
}

fn on_shot<'a>(line: &'a [u8], x: Span, s: State<'a>) -> Result<Option<State<'a>>, Cause>
    ensures { Takes line.now s.entry (shot_said line.now x) result }
{
    check_shot(s.line, x, s.station, part(line, x.from))?;
    Ok(Some(moved(line, x, s)))
}

// The end has the count of the shots: all lines before it but the header.
fn check_end(line: u32, count: u64) -> Result<(), Cause>
    requires { 2 ≤ line }
    ensures { code_in result ≡ refusal line [] (last count) }
{
    if count == (line - 2) as u64 {
        Ok(())
    } else {
        Err(Cause::Misplaced)
    }
}

// One line after the header: the state after a shot, none after the end.
pub fn take_line<'a>(line: &'a [u8], kind: Kind, s: State<'a>) -> Result<Option<State<'a>>, Cause>
    ensures { Takes line.now s.entry (read_entry (two_readings kind) line.now) result }
{
    let Some(entry) = read_entry(line, kind) else {
        return Err(Cause::Misplaced);
    };
    match entry {
        Entry::Shot(x) => on_shot(line, x, s),
        Entry::End(count) => {
            check_end(s.line, count)?;
            Ok(None)
        }
    }
}
