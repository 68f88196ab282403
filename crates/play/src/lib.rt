// Many plays of one loop: how far each misses, each with the pairs after those of the one before.
#![tactic(auto)]

mod noisy_loop;
mod plays;
mod refusal;
mod room;
mod sum;

ghost use Rattle.std.specs.Prelude.{◌≡◌, length};
ghost use Rattle.job_reader.specs.Limits.{most_shots};
ghost use Rattle.play.specs.Play.{play_of, answer_of, misses_after};
ghost use Rattle.play.specs.Private.{answer_in};

use crate::noisy_loop::NoisyLoop;
use crate::refusal::Refusal;
use crate::room::has_room;
use job_reader::limits::MOST_SHOTS;
use job_reader::loops::{LoopShot, read_loop};

// The refusal code, 0 where the loop is played; and the line, 0 where no line is at fault.
// A code and a line, and no `Result`: the theorems of specs/PlayBack.antt speak of this answer.
#[derive(Clone, Copy)]
pub struct PlayAnswer {
    pub code: u32,
    pub line: u32,
}

// The plays of a loop whose shots are read into the caller's memory.
fn played(
    text: &[u8],
    first: u64,
    shots: &mut [LoopShot],
    misses: &mut [[i64; 2]],
) -> Result<(), Refusal>
    requires { length shots.old ≡ most_shots }
    ensures answer { answer_in result ≡ answer_of (play_of text.now first (length misses.old)) }
    ensures memory { misses.new ≡ misses_after (play_of text.now first (length misses.old)) first misses.old }
{
    let read = read_loop(text, shots)?;
    let n = read.count;
    if !has_room(first, misses.len() as u64, n as u32) {
        return Err(Refusal::NoRoom);
    }
    let noisy = NoisyLoop {
        distance: read.setting.distance,
        bearing: read.setting.bearing,
        shots: &shots[0..n],
    };
    noisy.plays(read.setting.generator, first, misses);
    Ok(())
}

// How far a loop misses in as many plays as there is room for, from the first that is given: east and north of each in whole millimetres.
pub fn play(text: &[u8], first: u64, misses: &mut [[i64; 2]]) -> PlayAnswer
    ensures answer { result ≡ answer_of (play_of text.now first (length misses.old)) }
    ensures memory { misses.new ≡ misses_after (play_of text.now first (length misses.old)) first misses.old }
{
    let none = LoopShot {
        distance: 0,
        bearing: 0,
    };
    let mut shots = [none; MOST_SHOTS as usize];
    match played(text, first, &mut shots, misses) {
        Ok(()) => PlayAnswer { code: 0, line: 0 },
        Err(refusal) => refusal.answer(),
    }
}
