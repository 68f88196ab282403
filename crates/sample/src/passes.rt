// Samples of some z = 65536 k + v in four passes: what the tables say of each z, its 2Q, about its radius F, and its two samples. The second and the last ask no
// table and do not branch, so that the compiler works on several z at a time in vector registers; factors of 32 bits, comparisons of 32 bits and signs taken
// from the top bit of a difference keep them so. A single pair takes the same way.
ghost use Rattle.std.specs.Prelude.{◌≡◌, ℕ, ◌*◌, ◌^◌, ◌≤◌, ◌<◌, length};
ghost use Rattle.radius.specs.Steps.{radius_limit};
ghost use Rattle.angle.specs.Steps.{in_quarter, signed_of};
ghost use Rattle.angle.specs.Rotations.{Rotated};
ghost use Rattle.box_muller.specs.Steps.{size, rounded};
ghost use Rattle.sample.specs.Samples.{samples_at};
ghost use Rattle.sample.specs.Private.{Room, Looked, UnderRoots, NearRoots, Ready};

use crate::width::Sample;
use angle::{Rotations, SineCosine};
use radius::Cell;

// What the tables say of each z.
// By index, here and in the passes below: several slices are read and written in step, and after an adapter of `iter_mut` a proof knows no element.
pub fn look_up(
    z: &[u64],
    places: &mut [u64],
    r: &mut [u32],
    x: &mut [u64],
    coarse: &mut [u64],
    fine: &mut [u64],
)
    requires { Room (length z.now) places.old r.old x.old coarse.old fine.old }
    ensures { Looked z.now places.new r.new x.new coarse.new fine.new (length z.now) }
{
    for i in 0..z.len() {
        let cell = Cell::of(z[i]);
        let rotations = Rotations::of(z[i]);
        places[i] = cell.place;
        r[i] = cell.reciprocal;
        x[i] = cell.log;
        coarse[i] = rotations.coarse;
        fine[i] = rotations.fine;
    }
}

// 2Q of the first n, each in place of its logarithm.
pub fn under_roots(n: usize, places: &[u64], r: &[u32], x: &mut [u64])
    requires { (n ≤ length places.now) × (n ≤ length r.now) × (n ≤ length x.old) }
    ensures { UnderRoots n places.now r.now x.old x.new }
{
    for i in 0..n {
        let cell = Cell {
            place: places[i],
            reciprocal: r[i],
            log: x[i],
        };
        x[i] = cell.under_root();
    }
}

// The radius F of the first n or one less, each in place of its reciprocal.
pub fn nears(n: usize, x: &[u64], r: &mut [u32])
    requires { (n ≤ length x.now) × (n ≤ length r.old) }
    ensures { NearRoots n x.now r.new }
{
    for i in 0..n {
        r[i] = radius::near(x[i]);
    }
}

// The unit of 2^-11 in the product of F and a sine or cosine, and half of it.
const UNIT: u64 = 1 << 39;

const HALF: u64 = 1 << 38;

// A sample's size: the nearest whole number of its units, halves up, of the radius F times the size of a sine or cosine.
fn size<S: Sample>(f: u32, g: u32) -> u32
    requires { (f < radius_limit) × (g ≤ 2 ^ 30) }
    ensures { result ≡ size S.bits f g }
{
    (((f * S::SCALE) as u64 * g as u64 + HALF) / UNIT) as u32
}

// The two samples of a radius F, and of v by its rotations: sizes are rounded first, since rounding keeps the sign.
fn pair_of<S: Sample>(f: u32, v: u32, rotations: Rotations) -> SineCosine
    requires { (f < radius_limit) × Rotated (in_quarter v) rotations.coarse rotations.fine }
    ensures { (result.sine ≡ rounded S.bits f (signed_of v).0) × (result.cosine ≡ rounded S.bits f (signed_of v).1) }
{
    angle::turn(
        v / 16384,
        size::<S>(f, rotations.sine()),
        size::<S>(f, rotations.cosine()),
    )
}

// The samples of each z, from its 2Q, a near radius and its rotations.
fn sample_each<S: Sample>(
    z: &[u64],
    x: &[u64],
    r: &[u32],
    coarse: &[u64],
    fine: &[u64],
    out: &mut [S],
)
    requires { Ready z.now x.now r.now coarse.now fine.now × (length out.old ≡ 2 * length z.now) }
    ensures { S.values out.new ≡ samples_at S.bits z.now }
{
    for i in 0..z.len() {
        let f = radius::root(x[i], r[i]);
        let rotations = Rotations {
            coarse: coarse[i],
            fine: fine[i],
        };
        let pair = pair_of::<S>(f, (z[i] % 65536) as u32, rotations);
        let first = S::of_units(pair.sine);
        let second = S::of_units(pair.cosine);
        out[2 * i] = first;
        out[2 * i + 1] = second;
    }
}

// The samples of each z. What the other slices hold does not matter.
// Six slices: as one struct of six arrays with the passes as its methods, which was proved, a block takes 98.3 instructions a sample and not 93.4, one of 16
// samples 128 and not 105, and a pair on a Cortex-M4F 501 and not 412.
pub fn samples<S: Sample>(
    z: &[u64],
    places: &mut [u64],
    r: &mut [u32],
    x: &mut [u64],
    coarse: &mut [u64],
    fine: &mut [u64],
    out: &mut [S],
)
    requires { Room (length z.now) places.old r.old x.old coarse.old fine.old × (length out.old ≡ 2 * length z.now) }
    ensures { S.values out.new ≡ samples_at S.bits z.now }
{
    look_up(z, places, r, x, coarse, fine);
    under_roots(z.len(), places, r, x);
    nears(z.len(), x, r);
    sample_each(z, x, r, coarse, fine, out)
}
