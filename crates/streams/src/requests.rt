// A request for pairs that is noted, given up or taken later, and the refusals of the calls that test a length or the note.
ghost use Rattle.std.specs.Prelude.{◌≡◌};
ghost use Rattle.streams.specs.Refusals.{code_of_result};
ghost use Rattle.streams.specs.Streams.{asked_code, taken_code, length_code, code_of, noted, cleared, ask_of, give_up_of};
ghost use Rattle.streams.specs.Streams.Call.{a_Block, an_ask, a_take, give_up};

use crate::{Generator, RecordAnswer, Refusal};

// The most pairs that a request may ask for.
const MOST_ASKED: u32 = 1_000_000;

// ---- What a call tests of its own arguments

// Whether a length is even.
#[tactic(auto, unfolding(crate::specs::Streams::length_code))]
fn check_length(n: usize) -> Result<(), Refusal>
    ensures { code_of_result result ≡ length_code n }
{
    if n % 2 != 0 {
        return Err(Refusal::OddLength);
    }
    Ok(())
}

// Whether a request may ask for n pairs.
#[tactic(auto, unfolding(crate::specs::Streams::asked_code))]
fn check_asked(n: u32) -> Result<(), Refusal>
    ensures { code_of_result result ≡ asked_code n }
{
    if MOST_ASKED < n {
        return Err(Refusal::WrongRequest);
    }
    Ok(())
}

// Whether a request may ask for the pairs that are noted, and n is two for each of them.
fn check_taken(g: Generator, n: usize) -> Result<(), Refusal>
    ensures { code_of_result result ≡ taken_code g n }
{
    check_asked(g.asked)?;
    if n != 2 * g.asked as usize {
        return Err(Refusal::WrongRequest);
    }
    Ok(())
}

// ---- What a call tests, in the order that its causes are told

// A block of n elements.
pub fn check_block(g: Generator, n: usize) -> Result<(), Refusal>
    ensures { code_of_result result ≡ code_of (a_Block n) g }
{
    g.check_streams()?;
    g.check_none_open()?;
    check_length(n)?;
    g.check_room((n / 2) as u64)
}

// Asking for n pairs.
fn check_ask(g: Generator, n: u32) -> Result<(), Refusal>
    ensures { code_of_result result ≡ code_of (an_ask n) g }
{
    g.check_streams()?;
    g.check_none_open()?;
    check_asked(n)?;
    g.check_room(n as u64)
}

// Taking into a block of n elements.
pub fn check_take(g: Generator, n: usize) -> Result<(), Refusal>
    ensures { code_of_result result ≡ code_of (a_take n) g }
{
    g.check_streams()?;
    g.check_open()?;
    check_taken(g, n)?;
    g.check_room(g.asked as u64)
}

// Giving up, which asks for no pairs.
fn check_give_up(g: Generator) -> Result<(), Refusal>
    ensures { code_of_result result ≡ code_of give_up g }
{
    g.check_streams()?;
    g.check_open()
}

// ---- The calls

// The same record with another note.
fn with_note(g: Generator, waiting: u32, asked: u32) -> Generator
    ensures { result ≡ noted g waiting asked }
{
    Generator {
        waiting,
        asked,
        ..g
    }
}

impl Generator {
    // The same record with no request noted.
    pub fn without_note(self) -> Generator
        ensures { result ≡ cleared self }
    {
        with_note(self, 0, 0)
    }
}

// Notes a request for n pairs.
// Both cases of the test give an answer: a `match` says them plainest, here and in the other calls.
pub fn ask(g: Generator, n: u32) -> RecordAnswer
    ensures { result ≡ ask_of g n }
{
    match check_ask(g, n) {
        Ok(()) => RecordAnswer::accepted(with_note(g, 1, n)),
        Err(refusal) => RecordAnswer::refused(refusal, g),
    }
}

// Clears the request.
pub fn give_up(g: Generator) -> RecordAnswer
    ensures { result ≡ give_up_of g }
{
    match check_give_up(g) {
        Ok(()) => RecordAnswer::accepted(g.without_note()),
        Err(refusal) => RecordAnswer::refused(refusal, g),
    }
}
