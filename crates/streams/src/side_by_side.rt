// Both streams side by side, one number of 64 bits for each register of the two: a's register is the upper half and b's the lower. So one
// step moves both streams, and one exclusive-or gives the number 65536 k + v of a pair.
ghost use Rattle.std.specs.Prelude.{◌≡◌, ◌+◌, ◌*◌, ◌^◌, length};
ghost use Rattle.streams.specs.Streams.{advance};
ghost use Rattle.streams.specs.Lanes.{upper, lower, word_of, words, LanesAfter};
ghost use Rattle.streams.specs.Private.{lanes_of};

use crate::{Both, Lanes, Stream};

// Two registers as the halves of one number.
// As a sum, which is what its clause says: `<<` and `|` would say no more.
fn joined(a: u32, b: u32) -> u64
    ensures { result ≡ a * 2 ^ 32 + b }
{
    a as u64 * 0x1_0000_0000 + b as u64
}

// Both streams side by side.
impl From<Both> for Lanes {
    ghost from_gives = { λ both lanes. (upper lanes ≡ both.a) × (lower lanes ≡ both.b) };

    fn from(both: Both) -> Lanes {
        let a = both.a;
        let b = both.b;
        Lanes {
            s0: joined(a.s0, b.s0),
            s1: joined(a.s1, b.s1),
            s2: joined(a.s2, b.s2),
        }
    }
}

// Both streams apart again.
impl From<Lanes> for Both {
    ghost from_gives = { λ lanes both. (both.a ≡ upper lanes) × (both.b ≡ lower lanes) };

    fn from(lanes: Lanes) -> Both {
        let a = Stream {
            s0: (lanes.s0 / 0x1_0000_0000) as u32,
            s1: (lanes.s1 / 0x1_0000_0000) as u32,
            s2: (lanes.s2 / 0x1_0000_0000) as u32,
        };
        let b = Stream {
            s0: (lanes.s0 % 0x1_0000_0000) as u32,
            s1: (lanes.s1 % 0x1_0000_0000) as u32,
            s2: (lanes.s2 % 0x1_0000_0000) as u32,
        };
        Both { a, b }
    }
}

impl Lanes {
    // Every register of both streams one step on. (x << 13 ^ x) >> 19 of a half is (x >> 6 ^ x >> 19) with its lowest 13 bits kept,
    // and what one half shifts into the other is masked.
    fn advanced(self) -> Lanes
        ensures { result ≡ lanes_of (advance (upper self)) (advance (lower self)) }
    {
        let s0 = self.s0;
        let s1 = self.s1;
        let s2 = self.s2;
        Lanes {
            s0: ((s0 & 0x000f_fffe_000f_fffe) << 12)
                ^ (((s0 >> 6) ^ (s0 >> 19)) & 0x0000_1fff_0000_1fff),
            s1: ((s1 & 0x0fff_fff8_0fff_fff8) << 4)
                ^ (((s1 >> 23) ^ (s1 >> 25)) & 0x0000_007f_0000_007f),
            s2: ((s2 & 0x0000_7ff0_0000_7ff0) << 17)
                ^ (((s2 >> 8) ^ (s2 >> 11)) & 0x001f_ffff_001f_ffff),
        }
    }

    // The draws of both streams.
    fn word(self) -> u64
        ensures { result ≡ word_of (upper self) (lower self) }
    {
        self.s0 ^ self.s1 ^ self.s2
    }
}

// The numbers 65536 k + v of as many pairs as z has elements, and both streams after them. Public for crate `noise` alone: the call on a
// record is a block.
pub fn draw_pairs(streams: Lanes, z: &mut [u64]) -> Lanes
    ensures lanes_after { LanesAfter (length z.old) streams result }
    ensures z_after { z.new ≡ words (length z.old) (upper streams) (lower streams) }
{
    let mut state = streams;
    for word in z.iter_mut() {
        state = state.advanced();
        *word = state.word();
    }
    state
}
