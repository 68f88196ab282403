// The calls: the places are the caller's memory, and the other members of a window go in by value and come back as they then are.
ghost use Rattle.std.specs.Prelude.{◌≡◌, true, set};
ghost use Rattle.drift.specs.Drift.{
  fits,
  empty_places,
  empty_window,
  checked_of,
  made_of,
  moved_of,
  pushed_of,
  pushed_all,
  with_places,
  members_of,
  answered,
  number_of,
};

use crate::fit::{is_size, is_within};
use crate::sums::sums_after;
use crate::turn::{held_after, leaving, place_after};

// Why a call is refused: an unfit N or window.
#[derive(Clone, Copy, PartialEq, Eq)]
pub enum Refusal {
    Unfit = 17,
}

impl Refusal {
    // The refusal code. Each error enum has its own, for the reason in codes.rt of streams.
    pub fn number(self) -> u32
        ensures { result ≡ number_of self }
    {
        self as u32
    }
}

// The members of a window but its places: N, how many samples are held, the place that the next one takes, and the two sums.
// The places go beside them: a struct of both would be made of the caller's references at each call and taken apart again.
// No ghost field says that a window is fit: a caller may pass in one that is not, which is the refusal 17.
#[derive(Clone, Copy)]
pub struct Members {
    pub size: u32,
    pub held: u32,
    pub place: u32,
    pub sum: i64,
    pub squares: i64,
}

impl Members {
    // None held.
    pub fn empty(size: u32) -> Members
        ensures { result ≡ members_of (empty_window size) }
    {
        Members {
            size,
            held: 0,
            place: 0,
            sum: 0,
            squares: 0,
        }
    }

    #[tactic(auto, unfolding(crate::specs::Drift::fit_of))]
    fn is_fit(self) -> bool
        ensures { result ≡ fits self }
    {
        is_size(self.size)
            && self.held <= self.size
            && self.place < self.size
            && is_within(self.sum)
            && is_within(self.squares)
    }

    // A fit window after a sample.
    fn moved(self, places: &mut [i16; 4096], sample: i16) -> Members
        requires { fits self ≡ true }
        ensures value { result ≡ members_of (moved_of (with_places self places.old) sample) }
        ensures places_after { places.new ≡ set places.old self.place sample }
    {
        let at = self.place as usize;
        let out = leaving(self.held, self.size, places[at]);
        let sums = sums_after(self.sum, self.squares, out, sample);
        places[at] = sample;
        Members {
            size: self.size,
            held: held_after(self.held, self.size),
            place: place_after(self.place, self.size),
            sum: sums.sum,
            squares: sums.squares,
        }
    }
}

// Every place 0.
#[tactic(auto, unfolding(crate::specs::Drift::empty_places))]
pub fn clear(places: &mut [i16; 4096])
    ensures { places.new ≡ empty_places }
{
    *places = [0; 4096];
}

// The members of a window that is made; its places are empty.
#[tactic(auto, unfolding(crate::specs::Drift::made_of))]
pub fn made(n: u32) -> Result<Members, Refusal>
    ensures { result ≡ answered (made_of n) }
{
    if is_size(n) {
        Ok(Members::empty(n))
    } else {
        Err(Refusal::Unfit)
    }
}

// The window passed in, where it is fit; else its places are emptied.
#[tactic(auto, unfolding(crate::specs::Drift::checked_of))]
fn checked(m: Members, places: &mut [i16; 4096]) -> Result<Members, Refusal>
    ensures value { result ≡ answered (checked_of (with_places m places.old)) }
    ensures places_after { places.new ≡ (checked_of (with_places m places.old)).window.places }
{
    if !m.is_fit() {
        clear(places);
        return Err(Refusal::Unfit);
    }
    Ok(m)
}

// A push.
pub fn step(m: Members, places: &mut [i16; 4096], sample: i16) -> Result<Members, Refusal>
    ensures value { result ≡ answered (pushed_of (with_places m places.old) sample) }
    ensures places_after { places.new ≡ (pushed_of (with_places m places.old) sample).window.places }
{
    let fit = checked(m, places)?;
    Ok(fit.moved(places, sample))
}

// The pushes one by one.
pub fn run(m: Members, places: &mut [i16; 4096], samples: &[i16]) -> Result<Members, Refusal>
    ensures value { result ≡ answered (pushed_all (with_places m places.old) samples.now) }
    ensures places_after { places.new ≡ (pushed_all (with_places m places.old) samples.now).window.places }
{
    let mut last = checked(m, places)?;
    for &sample in samples {
        last = step(last, places, sample)?;
    }
    Ok(last)
}
