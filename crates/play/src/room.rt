// Whether the count of a record has room for many plays of a loop.
ghost use Rattle.std.specs.Prelude.{◌≡◌, ◌+◌};
ghost use Rattle.play.specs.Room.{has_room};

// The first number beyond 32 bits.
const WORD: u64 = 1 << 32;

// That the pairs of all plays up to the last do not pass the most that a record counts: the upper half of their number is below 2^32.
pub fn has_room(first: u64, runs: u64, shots: u32) -> bool
    ensures { result ≡ has_room (first + runs) shots }
{
    if shots == 0 {
        return true;
    }
    let Some(plays) = first.checked_add(runs) else {
        return false;
    };
    // By halves: `checked_mul` calls `__multi3` on wasm32, which nothing there has, and the library divides by no variable (tests/objects).
    let each = shots as u64;
    let upper = plays / WORD * each + plays % WORD * each / WORD;
    upper < WORD
}
