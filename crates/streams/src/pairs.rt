// A record from six numbers, and the two numbers of a pair.
ghost use Rattle.std.specs.Prelude.{◌≡◌};
ghost use Rattle.streams.specs.Streams.{fresh, onward, count_code, if_accepted, seed_of, uniforms_of};

use crate::{Both, Generator, RecordAnswer, Stream, Uniforms};

impl Generator {
    // A record as seeding makes it.
    fn fresh_record(a: Stream, b: Stream) -> Generator
        ensures { result ≡ fresh a b }
    {
        Generator {
            a,
            b,
            count: 0,
            waiting: 0,
            asked: 0,
        }
    }

    // A record from six numbers.
    // Six numbers and no two streams: the call that docs/ARCHITECTURE.md names, with the numbers of `jabulghi_seed`.
    pub fn seed(a0: u32, a1: u32, a2: u32, b0: u32, b1: u32, b2: u32) -> RecordAnswer
        ensures { result ≡ seed_of a0 a1 a2 b0 b1 b2 }
    {
        let g = Generator::fresh_record(
            Stream {
                s0: a0,
                s1: a1,
                s2: a2,
            },
            Stream {
                s0: b0,
                s1: b1,
                s2: b2,
            },
        );
        match g.check_streams() {
            Ok(()) => RecordAnswer::accepted(g),
            Err(refusal) => {
                let none = Stream {
                    s0: 0,
                    s1: 0,
                    s2: 0,
                };
                RecordAnswer::refused(refusal, Generator::fresh_record(none, none))
            }
        }
    }

    // The same record n pairs on, its streams as they then are; the record itself where the count has no room for n. Public for crate `noise` alone.
    pub fn onward(self, streams: Both, n: u64) -> Generator
        ensures { result ≡ if_accepted (count_code self n) (onward self streams.a streams.b n) self }
    {
        let Some(count) = self.count.checked_add(n) else {
            return self;
        };
        Generator {
            a: streams.a,
            b: streams.b,
            count,
            ..self
        }
    }

    // The two numbers of a pair: a draw from a, then one from b, as 48 and 16 bits.
    pub fn uniforms(self) -> Uniforms
        ensures { result ≡ uniforms_of self }
    {
        if let Err(refusal) = self.check_pairs(1) {
            return Uniforms {
                code: refusal.number(),
                k: 0,
                v: 0,
                next: self,
            };
        }
        let a = self.a.advanced();
        let b = self.b.advanced();
        let next = self.onward(Both { a, b }, 1);
        let high = a.word() as u64;
        let low = b.word();
        Uniforms {
            code: 0,
            k: high * 65536 + (low / 65536) as u64,
            v: low % 65536,
            next,
        }
    }
}
