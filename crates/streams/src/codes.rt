// Why a call on a record is refused: single causes, and a call's causes in the order that they are tested.
ghost use Rattle.std.specs.Prelude.{◌≡◌, [], ◌∷◌};
ghost use Rattle.streams.specs.Refusals.{number, code_of_result};
ghost use Rattle.streams.specs.Streams.{record_code, open_code, none_open_code, count_code, first_cause, pairs_code};

use crate::{Generator, RecordAnswer, Refusal};

impl Refusal {
    // The number that names the cause. Each error enum has its own: a trait for it would take as many lines and say no more.
    pub fn number(self) -> u32
        ensures { result ≡ number self }
    {
        self as u32
    }
}

impl RecordAnswer {
    // The record that an accepted call leaves.
    pub fn accepted(next: Generator) -> RecordAnswer
        ensures { result ≡ record { code = 0; next = next } }
    {
        RecordAnswer { code: 0, next }
    }

    // The record that a refused call leaves, under the number of its refusal.
    pub fn refused(refusal: Refusal, left: Generator) -> RecordAnswer
        ensures { result ≡ record { code = number refusal; next = left } }
    {
        RecordAnswer {
            code: refusal.number(),
            next: left,
        }
    }
}

impl Generator {
    // Whether both streams have their minima.
    // Both at once first: by a test of a and then one of b, a seeding takes 18 instructions more.
    #[tactic(auto, unfolding(crate::specs::Streams::record_code))]
    pub fn check_streams(self) -> Result<(), Refusal>
        ensures { code_of_result result ≡ record_code self }
    {
        if self.a.is_fit() && self.b.is_fit() {
            return Ok(());
        }
        if !self.a.is_fit() {
            return Err(Refusal::FirstStream);
        }
        Err(Refusal::SecondStream)
    }

    // Whether the count has room for n pairs more.
    #[tactic(auto, unfolding(crate::specs::Streams::count_code))]
    pub(crate) fn check_room(self, n: u64) -> Result<(), Refusal>
        ensures { code_of_result result ≡ count_code self n }
    {
        if self.count.checked_add(n).is_none() {
            return Err(Refusal::CountFull);
        }
        Ok(())
    }

    // Whether no request is open.
    #[tactic(auto, unfolding(crate::specs::Streams::open_code))]
    pub fn check_none_open(self) -> Result<(), Refusal>
        ensures { code_of_result result ≡ open_code self }
    {
        if self.waiting != 0 {
            return Err(Refusal::Open);
        }
        Ok(())
    }

    // Whether a request is open.
    #[tactic(auto, unfolding(crate::specs::Streams::none_open_code))]
    pub fn check_open(self) -> Result<(), Refusal>
        ensures { code_of_result result ≡ none_open_code self }
    {
        if self.waiting == 0 {
            return Err(Refusal::NoneOpen);
        }
        Ok(())
    }

    // Whether n pairs can be drawn, by a call that has no arguments of its own to test.
    pub(crate) fn check_pairs(self, n: u64) -> Result<(), Refusal>
        ensures { code_of_result result ≡ pairs_code self n }
    {
        self.check_streams()?;
        self.check_none_open()?;
        self.check_room(n)
    }
}
