// The makers' C interface to windows: each function equals the call of crate `drift`. The caller's window comes as its members one by one, in the order
// of the header's struct jabulghi_window, whose inline functions take it apart.
#![tactic(auto)]

ghost use Rattle.std.specs.Prelude.{◌≡◌, Result};
ghost use Rattle.drift.specs.Drift.{window_of, with_places, empty_window, made_of, pushed_of, pushed_all, answer_code, answer_members};

use drift::window;
use drift::window::{Members, Refusal};

// What a call returned goes to the caller's members, all 0 where it is refused; the code.
fn stored(
    answer: Result<Members, Refusal>,
    size: &mut u32,
    held: &mut u32,
    place: &mut u32,
    sum: &mut i64,
    squares: &mut i64,
) -> u32
    ensures code { result ≡ answer_code answer }
    ensures members { record { size = size.new; held = held.new; place = place.new; sum = sum.new; squares = squares.new } ≡ answer_members answer }
{
    let (code, members) = match answer {
        Ok(members) => (0, members),
        Err(refusal) => (refusal.number(), Members::empty(0)),
    };
    *size = members.size;
    *held = members.held;
    *place = members.place;
    *sum = members.sum;
    *squares = members.squares;
    code
}

// A window for the latest n samples.
pub fn jabulghi_window_make_members(
    size: &mut u32,
    held: &mut u32,
    place: &mut u32,
    places: &mut [i16; 4096],
    sum: &mut i64,
    squares: &mut i64,
    n: u32,
) -> u32
    ensures code { result ≡ (made_of n).code }
    ensures window_after { window_of size.new held.new place.new places.new sum.new squares.new ≡ (made_of n).window }
{
    window::clear(places);
    stored(window::made(n), size, held, place, sum, squares)
}

// One sample.
// This and the next read the members by the same literal: a function for it would take five references for one expression.
pub fn jabulghi_window_push_members(
    size: &mut u32,
    held: &mut u32,
    place: &mut u32,
    places: &mut [i16; 4096],
    sum: &mut i64,
    squares: &mut i64,
    sample: i16,
) -> u32
    ensures code { result ≡ (pushed_of (window_of size.old held.old place.old places.old sum.old squares.old) sample).code }
    ensures window_after { window_of size.new held.new place.new places.new sum.new squares.new ≡ (pushed_of (window_of size.old held.old place.old places.old sum.old squares.old) sample).window }
{
    let was = Members {
        size: *size,
        held: *held,
        place: *place,
        sum: *sum,
        squares: *squares,
    };
    let pushed = window::step(was, places, sample);
    stored(pushed, size, held, place, sum, squares)
}

// Many samples, as if they were pushed one by one.
pub fn jabulghi_window_push_all_members(
    size: &mut u32,
    held: &mut u32,
    place: &mut u32,
    places: &mut [i16; 4096],
    sum: &mut i64,
    squares: &mut i64,
    samples: &[i16],
) -> u32
    ensures code { result ≡ (pushed_all (window_of size.old held.old place.old places.old sum.old squares.old) samples.now).code }
    ensures window_after { window_of size.new held.new place.new places.new sum.new squares.new ≡ (pushed_all (window_of size.old held.old place.old places.old sum.old squares.old) samples.now).window }
{
    let was = Members {
        size: *size,
        held: *held,
        place: *place,
        sum: *sum,
        squares: *squares,
    };
    let ran = window::run(was, places, samples);
    stored(ran, size, held, place, sum, squares)
}
