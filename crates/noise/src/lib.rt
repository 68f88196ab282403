// A pair of samples, a block of them in the caller's memory, a look at a block, and the block that was asked for, from a generator record; each call is for
// samples of either width (`Sample`).
#![tactic(auto)]

ghost use Rattle.std.specs.Prelude.{◌≡◌, length};
ghost use Rattle.streams.specs.Lanes.{upper, lower};
ghost use Rattle.noise.specs.Noise.{pair_of, pair_returns, samples_in, block_of, block_holds, look_of, look_holds, take_of, take_holds};

use sample::{Sample, chunks, clear, fill};
use streams::{Both, Generator, Lanes, RecordAnswer};

// The next pair of samples, in the caller's memory, and the record after it; refused, 0 and 0.
// By the codes of the draw and of the samples: `pair_of` of specs/Noise.antt states the pair by them.
pub fn pair<S: Sample>(g: Generator, out: &mut [S; 2]) -> RecordAnswer
    ensures answer { result ≡ pair_returns S.bits g }
    ensures memory { S.values out.new ≡ samples_in (pair_of S.bits g) }
{
    let drawn = g.uniforms();
    let next = drawn.next;
    if drawn.code != 0 {
        clear(out);
        return RecordAnswer {
            code: drawn.code,
            next,
        };
    }
    let code = sample::sample(drawn.k, drawn.v, out);
    RecordAnswer { code, next }
}

// The streams of a record, side by side.
fn side_by_side(g: Generator) -> Lanes
    ensures { (upper result ≡ g.a) × (lower result ≡ g.b) }
{
    Lanes::from(Both { a: g.a, b: g.b })
}

// A block of samples, first and second of each pair alternating.
pub fn block<S: Sample>(g: Generator, out: &mut [S]) -> RecordAnswer
    ensures answer { result ≡ block_of g (length out.old) }
    ensures memory { S.values out.new ≡ block_holds S.bits g (S.values out.old) }
{
    if let Err(refusal) = streams::check_block(g, out.len()) {
        return RecordAnswer::refused(refusal, g);
    }
    let n = (out.len() / 2) as u64;
    let streams = side_by_side(g);
    let after = fill(streams, out);
    let next = g.onward(Both::from(after), n);
    RecordAnswer::accepted(next)
}

// A look at the block that would come next, as if no request were open: its samples, and the record as it is.
pub fn look<S: Sample>(g: Generator, out: &mut [S]) -> RecordAnswer
    ensures answer { result ≡ look_of g (length out.old) }
    ensures memory { S.values out.new ≡ look_holds S.bits g (S.values out.old) }
{
    let free = g.without_note();
    if let Err(refusal) = streams::check_block(free, out.len()) {
        return RecordAnswer::refused(refusal, g);
    }
    let streams = side_by_side(free);
    chunks(streams, out);
    RecordAnswer::accepted(g)
}

// The samples that were asked for; the request is closed.
pub fn take<S: Sample>(g: Generator, out: &mut [S]) -> RecordAnswer
    ensures answer { result ≡ take_of g (length out.old) }
    ensures memory { S.values out.new ≡ take_holds S.bits g (S.values out.old) }
{
    if let Err(refusal) = streams::check_take(g, out.len()) {
        return RecordAnswer::refused(refusal, g);
    }
    let free = g.without_note();
    let n = (out.len() / 2) as u64;
    let streams = side_by_side(free);
    let after = chunks(streams, out);
    let next = free.onward(Both::from(after), n);
    RecordAnswer::accepted(next)
}
