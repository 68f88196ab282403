// The calls on the labels of a set: a refusal code, 0 where the call is accepted, and the place that it is about.
ghost use Rattle.std.specs.Prelude.{◌<◌, ◌≡◌, [], ◌∷◌};
ghost use Rattle.streams.specs.Streams.{first_cause};
ghost use Rattle.streams.specs.Refusals.{code_of_result};
ghost use Rattle.marks.specs.Marks.{places, idle_code, name_code, place_code, place_to_save, place_to_return, place_to_drop};
ghost use Rattle.marks.specs.declared.call.Refusal.TheVariants.{OfRecord};
ghost use Rattle.marks.specs.Codes.{mark_number, mark_code, or_places, Within};

use crate::PLACES;
use crate::label::Label;
use crate::place::{place_of, save_place};
use streams::Generator;
use text::field::is_name;

// A call's refusal code, and the place that it is about.
// With its code, and no Result: `place_to_save` of specs/Marks.antt is a `Placed`. That builds one of any two numbers, so the contracts of the calls,
// and no invariant here, say that an accepted call's place is inside the set.
#[derive(Clone, Copy)]
pub struct Placed {
    pub code: u32,
    pub place: usize,
}

// Why a call on a set is refused.
#[derive(Clone, Copy, PartialEq, Eq)]
pub enum Refusal {
    OfRecord(streams::Refusal),
    Malformed,
    NotHeld,
    NoPlace,
}

impl From<streams::Refusal> for Refusal {
    ghost from_gives = { λ refusal r. r ≡ OfRecord refusal };

    fn from(refusal: streams::Refusal) -> Refusal {
        Refusal::OfRecord(refusal)
    }
}

impl Refusal {
    // The number that names the cause.
    fn number(self) -> u32
        ensures { result ≡ mark_number self }
    {
        match self {
            Refusal::OfRecord(refusal) => refusal.number(),
            Refusal::Malformed => 18,
            Refusal::NotHeld => 19,
            Refusal::NoPlace => 20,
        }
    }
}

impl Placed {
    // The place that was found, PLACES where there is none, and the code of the call's tests.
    fn of(found: Option<usize>, tested: Result<usize, Refusal>) -> Placed
        ensures { result ≡ record { code = mark_code tested; place = or_places found } }
    {
        let code = match tested {
            Ok(_) => 0,
            Err(refusal) => refusal.number(),
        };
        Placed {
            code,
            place: found.unwrap_or(PLACES),
        }
    }
}

// Whether the record is fit and has no request open: saving and returning wait for the record passed in.
fn check_idle(g: Generator) -> Result<(), streams::Refusal>
    ensures { code_of_result result ≡ idle_code g }
{
    g.check_streams()?;
    g.check_none_open()
}

// Whether the name is well formed.
fn check_name(name: &[u8]) -> Result<(), Refusal>
    ensures { mark_code result ≡ name_code name.now }
{
    if !is_name(name) {
        return Err(Refusal::Malformed);
    }
    Ok(())
}

// The tests of a call in their order: the record, the name, and that the set has such a place.
fn tested(
    busy: Result<(), streams::Refusal>,
    name: &[u8],
    found: Option<usize>,
    absent: Refusal,
) -> Result<usize, Refusal>
    requires { Within found }
    ensures { mark_code result ≡ first_cause (code_of_result busy ∷ name_code name.now ∷ place_code (or_places found) (mark_number absent) ∷ []) }
{
    busy?;
    check_name(name)?;
    found.ok_or(absent)
}

// 20: all places are used and the name is new.
pub fn place_to_save(labels: [Label; PLACES], g: Generator, name: &[u8]) -> Placed
    ensures placed { result ≡ place_to_save labels g name.now }
    ensures within { result.code ≡ 0 → result.place < places }
{
    let found = save_place(&labels, name);
    Placed::of(found, tested(check_idle(g), name, found, Refusal::NoPlace))
}

// 19: the name is not held.
pub fn place_to_return(labels: [Label; PLACES], g: Generator, name: &[u8]) -> Placed
    ensures placed { result ≡ place_to_return labels g name.now }
    ensures within { result.code ≡ 0 → result.place < places }
{
    let found = place_of(&labels, name);
    Placed::of(found, tested(check_idle(g), name, found, Refusal::NotHeld))
}

// 19: the name is not held. A drop waits for no record.
pub fn place_to_drop(labels: [Label; PLACES], name: &[u8]) -> Placed
    ensures placed { result ≡ place_to_drop labels name.now }
    ensures within { result.code ≡ 0 → result.place < places }
{
    let found = place_of(&labels, name);
    Placed::of(found, tested(Ok(()), name, found, Refusal::NotHeld))
}
