// The sine and the cosine of v at 2^30 (document 01, 'Angle and sample').
#![tactic(auto)]

ghost use Rattle.std.specs.Prelude.{◌≡◌, ◌<◌, ℕ, ◌+◌, ◌/◌, ◌%◌, ◌^◌, nat_eq, pos, neg_ℤ, if◌then◌else◌};
ghost use Rattle.exact.specs.Pair.{turn};
ghost use Rattle.angle.specs.Steps.{sine_at, cosine_at, signed_of};
ghost use Rattle.angle.specs.Rotations.{Rotated};
ghost use Rattle.angle.specs.Private.{values_of};

// The numbers of a quarter, and the scale of sines and cosines.
const QUARTER: u32 = 16384;

const SCALE: u64 = 1 << 30;

// What a number of 32 bits, and one of 31, is below.
const WORD: u64 = 1 << 32;

const HALF_WORD: u64 = 1 << 31;

// The rotations of w = 128 a + b: C and D of a, and c and s of b, each cosine above its sine.
// Two numbers in one: apart they would be two slices more in each pass of crate `sample`.
#[derive(Clone, Copy)]
pub struct Rotations {
    pub coarse: u64,
    pub fine: u64,
}

impl Rotations {
    // The rotations of z mod 16384.
    pub fn of(z: u64) -> Rotations
        ensures { Rotated (z % 16384) result.coarse result.fine }
    {
        Rotations {
            coarse: rotation_lookup::coarse(z / 128 % 128),
            fine: rotation_lookup::fine(z % 128),
        }
    }

    // The sine of w, from its rotations.
    pub fn sine(self) -> u32
        ensures { (w : ℕ) → Rotated w self.coarse self.fine → result ≡ sine_at w }
    {
        let coarse = self.coarse;
        let fine = self.fine;
        let sum = coarse % HALF_WORD * (fine / WORD) + coarse / WORD * (fine % HALF_WORD);
        (sum / SCALE % WORD) as u32
    }

    // The cosine of w, from its rotations.
    pub fn cosine(self) -> u32
        ensures { (w : ℕ) → Rotated w self.coarse self.fine → result ≡ cosine_at w }
    {
        let coarse = self.coarse;
        let fine = self.fine;
        // The function and not the method, as in crate `radius`.
        let difference = std::num::wrapping_sub_u64(
            coarse / WORD * (fine / WORD),
            coarse % WORD * (fine % WORD),
        );
        (difference / SCALE % WORD) as u32
    }
}

// A quarter by the two values in it, (sine, cosine), where sin and cos are those of the angle within the quarter: odd where the two are exchanged; from 2 on the
// sine is negative, and in 1 and 2 the cosine. By number: the case of an enum is a byte to the compiler, and a block of 64 samples then takes 3 % more time.
#[derive(Clone, Copy)]
struct Quarter(u32);

const SIN_COS: Quarter = Quarter(0);

const COS_MINUS_SIN: Quarter = Quarter(1);

const MINUS_SIN_MINUS_COS: Quarter = Quarter(2);

const MINUS_COS_SIN: Quarter = Quarter(3);

impl Quarter {
    // The quarters of document 01, in its order. A q above 3 counts as 3.
    fn of(q: u32) -> Quarter
        ensures values { result.0 ≡ values_of q }
        ensures few { result.0 < 4 }
    {
        match q {
            0 => SIN_COS,
            1 => COS_MINUS_SIN,
            2 => MINUS_SIN_MINUS_COS,
            _ => MINUS_COS_SIN,
        }
    }

    fn exchanged(self) -> bool
        ensures { result ≡ nat_eq (self.0 % 2) 1 }
    {
        self.0 % 2 == 1
    }

    fn sine_negative(self) -> bool
        ensures { result ≡ nat_eq (self.0 / 2) 1 }
    {
        self.0 / 2 == 1
    }

    fn cosine_negative(self) -> bool
        ensures { result ≡ nat_eq ((self.0 + 1) % 2 ^ 32 / 2) 1 }
    {
        self.0.wrapping_add(1) / 2 == 1
    }
}

// A size, or the other where the two are exchanged. A value is chosen, here and in `signed`: there is no step to run, and so no closure.
fn either(exchanged: bool, own: u32, other: u32) -> u32
    ensures { result ≡ (if exchanged then other else own) }
{
    if exchanged { other } else { own }
}

// A size with its sign.
fn signed(negative: bool, size: u32) -> i64
    ensures { result ≡ (if negative then neg_ℤ (pos size) else pos size) }
{
    let value = size as i64;
    if negative { -value } else { value }
}

// A sine and a cosine with their signs, at 2^30 or at any other scale.
#[derive(Clone, Copy)]
pub struct SineCosine {
    pub sine: i64,
    pub cosine: i64,
}

// The sine and the cosine in quarter q, of the sizes of any two within it.
pub fn turn(q: u32, sin: u32, cos: u32) -> SineCosine
    ensures { (result.sine, result.cosine) ≡ turn neg_ℤ q (pos sin, pos cos) }
{
    let quarter = Quarter::of(q);
    let exchanged = quarter.exchanged();
    let sine = signed(quarter.sine_negative(), either(exchanged, sin, cos));
    let cosine = signed(quarter.cosine_negative(), either(exchanged, cos, sin));
    SineCosine { sine, cosine }
}

// The sine and the cosine of v, at 2^30.
pub fn signed_of(v: u32) -> SineCosine
    ensures { (result.sine, result.cosine) ≡ signed_of v }
{
    let rotations = Rotations::of(v as u64);
    turn(v / QUARTER, rotations.sine(), rotations.cosine())
}
