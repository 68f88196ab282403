// Samples of two numbers k and v, and of the pairs that two streams draw; each function is for samples of either width (`Sample`).
// The six slices of a chunk go one by one, here and in passes.rt, for the reason at `samples` there.
#![tactic(auto)]

mod passes;
mod width;

ghost use Rattle.std.specs.Prelude.{◌≡◌, [], ◌∷◌, ◌+◌, ◌*◌, ◌/◌, ◌%◌, ◌^◌, ◌≤◌, ◌<◌, min, pos, length, get_or};
ghost use Rattle.exact.specs.Pair.{Close};
ghost use Rattle.radius.specs.Steps.{number_bits, inverse};
ghost use Rattle.box_muller.specs.Sample.{samples_of};
ghost use Rattle.sample.specs.Filled.{LanesDrawn, Filled};
ghost use Rattle.sample.specs.Private.{Room};

use passes::samples;
use streams::{Lanes, draw_pairs};
pub use width::Sample;

// Two samples of 0, as a refused call leaves them.
pub fn clear<S: Sample>(out: &mut [S; 2])
    ensures { S.values out.new ≡ pos 0 ∷ pos 0 ∷ [] }
{
    out[0] = S::of_units(0);
    out[1] = S::of_units(0);
}

// The two samples of k and v: document 01's steps with the half step (demand 2), and so each near its member of the exact pair of (2k + 1) over 2^49, k from 0,
// and v over 65536: at 16 bits nearer than nine sixteenths of a unit of 2^-11 (demand 3), and than 33/64 (document 02, Job 10), at 18 than three quarters of a
// unit of 2^-13 (Job 8); or 0 and 0 with the refusal code.
// A number and no enum: `samples_of` of crate box_muller, by which clause `code` and the C functions state the answer, has the numbers 2 and 3.
pub fn sample<S: Sample>(k: u64, v: u32, out: &mut [S; 2]) -> u32
    ensures code { result ≡ (samples_of S.bits k v).code }
    ensures steps { S.values out.new ≡ (samples_of S.bits k v).first ∷ (samples_of S.bits k v).second ∷ [] }
    ensures close { k < 2 ^ number_bits → v < 65536 → Close S.limit S.bits (inverse k) v (get_or (S.values out.new) 0 (pos 0)) (get_or (S.values out.new) 1 (pos 0)) }
    ensures closer { k < 2 ^ number_bits → v < 65536 → Close S.closer S.bits (inverse k) v (get_or (S.values out.new) 0 (pos 0)) (get_or (S.values out.new) 1 (pos 0)) }
{
    if radius::LIMIT <= k {
        clear(out);
        return 2;
    }
    if 65535 < v {
        clear(out);
        return 3;
    }
    let z = [k * 65536 + v as u64];
    let mut places = [0u64];
    let mut r = [0u32];
    let mut x = [0u64];
    let mut coarse = [0u64];
    let mut fine = [0u64];
    samples(&z, &mut places, &mut r, &mut x, &mut coarse, &mut fine, out);
    0
}

// Where the chunk that begins at a place of n ends, if it has room for `most`.
fn chunk_end(at: usize, n: usize, most: usize) -> usize
    requires { at ≤ n }
    ensures { result ≡ min n (at + most) }
{
    at + most.min(n - at)
}

// The samples of as many pairs as z has elements, by way of their words in z: both streams are drawn side by side.
fn draw_samples<S: Sample>(
    streams: Lanes,
    z: &mut [u64],
    places: &mut [u64],
    r: &mut [u32],
    x: &mut [u64],
    coarse: &mut [u64],
    fine: &mut [u64],
    out: &mut [S],
) -> Lanes
    requires { Room (length z.old) places.old r.old x.old coarse.old fine.old × (length out.old ≡ 2 * length z.old) }
    ensures { LanesDrawn S.bits (length z.old) streams result (S.values out.new) }
{
    let after = draw_pairs(streams, z);
    samples(z, places, r, x, coarse, fine, out);
    after
}

// The samples of half as many pairs as the memory has elements, in chunks of at most as many as z has.
fn by_chunks<S: Sample>(
    streams: Lanes,
    z: &mut [u64],
    places: &mut [u64],
    r: &mut [u32],
    x: &mut [u64],
    coarse: &mut [u64],
    fine: &mut [u64],
    out: &mut [S],
) -> Lanes
    requires { Room (length z.old) places.old r.old x.old coarse.old fine.old × ((0 < length z.old) × (length z.old ≤ 16)) × (length out.old % 2 ≡ 0) }
    ensures { LanesDrawn S.bits (length out.old / 2) streams result (S.values out.new) }
{
    let mut state = streams;
    let mut at = 0;
    // By place: after `chunks_mut` a proof knows how long the memory is, and not what it holds.
    while at < out.len() {
        let end = chunk_end(at, out.len(), 2 * z.len());
        let n = (end - at) / 2;
        state = draw_samples(
            state,
            &mut z[0..n],
            places,
            r,
            x,
            coarse,
            fine,
            &mut out[at..end],
        );
        at = end;
    }
    state
}

// The samples of as many pairs as a slice of even length has room for, in chunks of N pairs. What is cleared at each call is as long as a chunk.
fn in_chunks<S: Sample, const N: usize>(streams: Lanes, out: &mut [S]) -> Lanes
    requires { (0 < N) × (N ≤ 16) }
    ensures { Filled S.bits streams result (S.values out.old) (S.values out.new) }
{
    let mut z = [0u64; N];
    let mut places = [0u64; N];
    let mut r = [0u32; N];
    let mut x = [0u64; N];
    let mut coarse = [0u64; N];
    let mut fine = [0u64; N];
    if out.len() % 2 != 0 {
        return streams;
    }
    by_chunks(
        streams,
        &mut z,
        &mut places,
        &mut r,
        &mut x,
        &mut coarse,
        &mut fine,
        out,
    )
}

// The most pairs in a chunk, in a short block, and in one that is drawn pair by pair.
const CHUNK: usize = 16;

const SHORT: usize = 8;

const FEW: usize = 2;

// The samples of as many pairs as a slice of even length has room for, chunk by chunk.
pub fn chunks<S: Sample>(streams: Lanes, out: &mut [S]) -> Lanes
    ensures { Filled S.bits streams result (S.values out.old) (S.values out.new) }
{
    in_chunks::<S, CHUNK>(streams, out)
}

// The same; a short block in short chunks, and few pairs one by one, where the width has short blocks.
pub fn fill<S: Sample>(streams: Lanes, out: &mut [S]) -> Lanes
    ensures { Filled S.bits streams result (S.values out.old) (S.values out.new) }
{
    if S::SHORT_BLOCK < out.len() {
        return in_chunks::<S, CHUNK>(streams, out);
    }
    if 2 * FEW < out.len() {
        return in_chunks::<S, SHORT>(streams, out);
    }
    in_chunks::<S, 1>(streams, out)
}
