// The radius of a first number k: the six steps of document 01, 'Radius', in its order and with its names. By document 02, Job 5, the first number is
// 2k + 1 over 2^49, so 2k + 1 stands for the document's k, and 49 bits for 48. A step that divides multiplies by an inverse from a table or a series.
#![tactic(auto)]

ghost use Rattle.std.specs.Prelude.{◌≡◌, ℕ, ◌+◌, ◌-◌, ◌*◌, ◌/◌, ◌%◌, ◌^◌, ◌<◌, ◌≤◌};
ghost use Rattle.tables.specs.Tables.{entry_of};
ghost use Rattle.log_coarse_lookup.specs.Reciprocals.{reciprocals};
ghost use Rattle.radius.specs.Root.{whole_root, NearRoot};
ghost use Rattle.radius.specs.Steps.{number_bits, numerator, top_bit, under_root};
ghost use Rattle.radius.specs.Cells.{InCell, NearInverse};

// The function and not the method `wrapping_sub`: its clause says that the difference and what was taken make the number again, which the proofs cite.
use std::num::wrapping_sub_u64;

// The first number beyond k's 48 bits.
pub const LIMIT: u64 = 1 << 48;

// The first number beyond 32 bits.
const WORD: u64 = 1 << 32;

// The unit of h in M, 2^40, times 2^15.
const COARSE: u64 = 1 << 55;

// The roots of numbers below 2^48 are below this.
const ROOTS: u32 = 1 << 24;

// What steps 1, 2 and 3 and the tables say of a k: 2^15 M and, below it, i; the reciprocal of h; (49 - e) × K - A(h) - B(i), mod 2^64.
// M and i in one number: M leaves the low byte free, and apart they would be one slice more in each pass of crate `sample`.
#[derive(Clone, Copy)]
pub struct Cell {
    pub place: u64,
    pub reciprocal: u32,
    pub log: u64,
}

// 1. e, the position of the highest set bit of 2k + 1, from the leading zeros of k: one more than those of 2k + 1 for every k, 0 included.
fn top_bit(k: u64) -> u64
    requires { k < 2 ^ number_bits }
    ensures { (result ≡ top_bit (numerator k)) × (2 ^ result ≤ numerator k) × (numerator k < 2 ^ (result + 1)) }
{
    64 - k.leading_zeros() as u64
}

// About 2^53 / (h × (65536 + i)), from the reciprocal of h: with t = i / 65536, 1 / (1 + t) is (1 - t) (1 + t^2) but for a part of t^4.
fn inverse(reciprocal: u64, i: u64) -> u64
    requires { (reciprocal < 2 ^ 32) × (i < 256) }
    ensures { (result < 2 ^ 31) × ((h : ℕ) → 256 ≤ h → h < 512 → reciprocal ≡ entry_of reciprocals 256 h → NearInverse result (h * (65536 + i))) }
{
    let fine = (0x8000_0000 + i * i / 2) * (65536 - i) >> 18;
    reciprocal * fine >> 31
}

// 4. S = floor(r × 2^16 / divisor): the nearest whole number to the product of r with the divisor's inverse, less 1 where its product with the divisor is
// above r × 2^16.
fn correction(r: u64, divisor: u64, inverse: u64) -> u64
    requires { (divisor < 2 ^ 32) × (inverse < 2 ^ 31) }
    ensures { r < 2 ^ 33 → 2 ^ 24 ≤ divisor → divisor < 2 ^ 25 → NearInverse inverse divisor → result ≡ r * 2 ^ 16 / divisor }
{
    let nearest = (r / 2 % WORD * inverse + (1 << 35)) >> 36;
    let above = wrapping_sub_u64(r << 16, nearest * divisor) >> 63;
    wrapping_sub_u64(nearest, above)
}

// x, or 0 where bit 50 is set: a difference mod 2^64 that is below 0 has it.
fn or_zero(x: u64) -> u64
    ensures { result ≡ (1 - x / 2 ^ 50 % 2) * x }
{
    x & wrapping_sub_u64((x >> 50) % 2, 1)
}

impl Cell {
    // The cell of the k of z = 65536 k + v.
    pub fn of(z: u64) -> Cell
        ensures { InCell (z / 65536) result.place result.reciprocal result.log }
    {
        let k = z / 65536;
        // 1. M = (2k + 1) × 2^(48-e). M and d stand here times 2^15, so that the highest bit of M is bit 63.
        let e = top_bit(k);
        let m = ((2 * k + 1) << 15) << (48 - e);
        // 2. h = floor(M / 2^40), from 256 to 511; d = M mod 2^40.
        let h = (m >> 55) % 256 + 256;
        let d = m % COARSE;
        let row = log_coarse_lookup::coarse(h);
        let reciprocal = row.reciprocal;
        // 3. i = floor(d / (h × 2^24)), at most 255: the upper 16 bits of d by the reciprocal of h.
        let i = (d >> 39) * reciprocal as u64 >> 39;
        // 5. (49 - e) × K - A(h) - B(i).
        let doublings = (49 - e) * tables::ln_two();
        let b = log_fine_lookup::fine(i) as u64;
        let place = m + i;
        Cell {
            place,
            reciprocal,
            log: wrapping_sub_u64(doublings, row.log + b),
        }
    }

    // 2Q, the number under the root, from the cell of its k.
    pub fn under_root(self) -> u64
        ensures { (k : ℕ) → k < 2 ^ number_bits → InCell k self.place self.reciprocal self.log → result ≡ under_root k }
    {
        let place = self.place;
        let h = place >> 55;
        let i = place % 256;
        // 3. r = d - i × h × 2^24, which is M - h × (65536 + i) × 2^24.
        let divisor = h * (65536 + i) % WORD;
        let r = wrapping_sub_u64(place, divisor << 39) >> 15;
        // 4. S.
        let s = correction(r, divisor, inverse(self.reciprocal as u64, i));
        // 5. Q, or 0 where that is below 0.
        or_zero(wrapping_sub_u64(self.log, s)) << 1
    }
}

// The root of x or one less, where x is below 2^48. x is moved up by an even number of places: its upper 7 bits are then its cell, and the next 32 say how far
// it lies in the cell.
pub fn near(x: u64) -> u32
    ensures { x < 2 ^ 48 → NearRoot x result }
{
    let places = x.leading_zeros() % 64 / 2;
    let scaled = x << (2 * places);
    let cell = root_lookup::cell_at(scaled >> 57);
    let along = (scaled >> 25) % WORD;
    let slope = cell.slope as u64 - (cell.fall as u64 * along >> 32);
    ((cell.start as u64 * WORD + slope * along) >> (32 + places)) as u32
}

// 6. F = the whole part of the square root of x = 2Q, from a number that is it or one less: the next number, less 1 where its square is above x.
pub fn root(x: u64, near: u32) -> u32
    ensures { x < 2 ^ 48 → NearRoot x near → result ≡ whole_root x }
{
    let next = near % ROOTS + 1;
    let above = wrapping_sub_u64(x, next as u64 * next as u64) >> 63;
    next - above as u32
}
