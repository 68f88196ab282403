// A generator record as the ten words of the header's struct jabulghi_record: a's s0, s1, s2, then b's, then the count's low and high word, then
// whether a request is open and for how many pairs.
ghost use Rattle.std.specs.Prelude.{◌≡◌};
ghost use Rattle.jabulghi.specs.Words.{words_of, generator_of};

use streams::{Generator, RecordAnswer, Stream};

// A word's values.
const WORD: u64 = 1 << 32;

// The record that ten words are.
// A pair of functions and no `From`: the impl would have to stand in crate streams, which does not know the header's ten words.
pub fn unpacked(words: [u32; 10]) -> Generator
    ensures { result ≡ generator_of words }
{
    let a = Stream {
        s0: words[0],
        s1: words[1],
        s2: words[2],
    };
    let b = Stream {
        s0: words[3],
        s1: words[4],
        s2: words[5],
    };
    let count = words[7] as u64 * WORD + words[6] as u64;
    Generator {
        a,
        b,
        count,
        waiting: words[8],
        asked: words[9],
    }
}

// The ten words of a record.
pub fn packed(g: Generator) -> [u32; 10]
    ensures { result ≡ words_of g }
{
    let low = (g.count % WORD) as u32;
    let high = (g.count / WORD) as u32;
    [
        g.a.s0, g.a.s1, g.a.s2, g.b.s0, g.b.s1, g.b.s2, low, high, g.waiting, g.asked,
    ]
}

// What a call returned goes to the caller's words; the code.
pub(crate) fn stored(answer: RecordAnswer, words: &mut [u32; 10]) -> u32
    ensures code { result ≡ answer.code }
    ensures words_after { words.new ≡ words_of answer.next }
{
    *words = packed(answer.next);
    answer.code
}
