// The places of a window, taken in turn.
// Numbers and no window: `leaving_of`, `held_after` and `place_after` of specs/Drift.antt take them so; as methods of `Members` they would name the same numbers.
ghost use Rattle.std.specs.Prelude.{◌≡◌, ◌<◌};
ghost use Rattle.drift.specs.Drift.{leaving_of, held_after, place_after};

// What leaves: the oldest, which stands where the next one goes, once N are held.
pub fn leaving(held: u32, size: u32, old: i16) -> i16
    ensures { result ≡ leaving_of held size old }
{
    if held < size { 0 } else { old }
}

pub fn held_after(held: u32, size: u32) -> u32
    ensures { result ≡ held_after held size }
{
    if held < size { held + 1 } else { held }
}

// Compared, and not taken modulo N: a division by a number that is not known is a call on some processors, and tests/objects refuses it.
pub fn place_after(place: u32, size: u32) -> u32
    requires { place < size }
    ensures { result ≡ place_after place size }
{
    if place + 1 < size { place + 1 } else { 0 }
}
