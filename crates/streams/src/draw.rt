// One draw from a stream, and whether its registers have their minima.
ghost use Rattle.std.specs.Prelude.{◌≡◌, ◌<◌};
ghost use Rattle.streams.specs.Streams.{step, advance, output, fit};

use crate::Stream;

// A register of K digits, its step of S digits by the trinomial whose middle term is Q.
fn step<const K: u32, const Q: u32, const S: u32>(x: u32) -> u32
    requires { (S < K) × (K < 32) × (Q < 32) }
    ensures { result ≡ step K Q S x }
{
    ((x & (u32::MAX << (32 - K))) << S) ^ (((x << Q) ^ x) >> (K - S))
}

impl Stream {
    // Every register one step on.
    #[tactic(auto, unfolding(crate::specs::Streams::advance))]
    pub(crate) fn advanced(self) -> Stream
        ensures { result ≡ advance self }
    {
        Stream {
            s0: step::<31, 13, 12>(self.s0),
            s1: step::<29, 2, 4>(self.s1),
            s2: step::<28, 3, 17>(self.s2),
        }
    }

    // The exclusive-or of the registers.
    #[tactic(auto, unfolding(crate::specs::Streams::output))]
    pub(crate) fn word(self) -> u32
        ensures { result ≡ output self }
    {
        self.s0 ^ self.s1 ^ self.s2
    }

    // Whether every register has its minimum.
    #[tactic(auto, unfolding(crate::specs::Streams::fit))]
    pub(crate) fn is_fit(self) -> bool
        ensures { result ≡ fit self }
    {
        2 <= self.s0 && 8 <= self.s1 && 16 <= self.s2
    }
}
