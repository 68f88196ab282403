// Calls on a record alone. Exported, so under the header's names and with its parameters.
ghost use Rattle.std.specs.Prelude.{◌≡◌};
ghost use Rattle.streams.specs.Streams.{seed_of, skip_of, ask_of, give_up_of};
ghost use Rattle.jabulghi.specs.Words.{words_of, generator_of};

// Seeds a record.
#[unsafe(no_mangle)]
pub extern "C" fn jabulghi_seed(
    a0: u32,
    a1: u32,
    a2: u32,
    b0: u32,
    b1: u32,
    b2: u32,
    words: &mut [u32; 10],
) -> u32
    ensures code { result ≡ (seed_of a0 a1 a2 b0 b1 b2).code }
    ensures words_after { words.new ≡ words_of (seed_of a0 a1 a2 b0 b1 b2).next }
{
    jabulghi::record::jabulghi_seed(a0, a1, a2, b0, b1, b2, words)
}

// A record n pairs on.
#[unsafe(no_mangle)]
pub extern "C" fn jabulghi_skip(words: &mut [u32; 10], n: u64) -> u32
    ensures code { result ≡ (skip_of (generator_of words.old) n).code }
    ensures words_after { words.new ≡ words_of (skip_of (generator_of words.old) n).next }
{
    jabulghi::record::jabulghi_skip(words, n)
}

// Notes a request for n pairs.
#[unsafe(no_mangle)]
pub extern "C" fn jabulghi_ask(words: &mut [u32; 10], n: u32) -> u32
    ensures code { result ≡ (ask_of (generator_of words.old) n).code }
    ensures words_after { words.new ≡ words_of (ask_of (generator_of words.old) n).next }
{
    jabulghi::record::jabulghi_ask(words, n)
}

// Clears the request.
#[unsafe(no_mangle)]
pub extern "C" fn jabulghi_give_up(words: &mut [u32; 10]) -> u32
    ensures code { result ≡ (give_up_of (generator_of words.old)).code }
    ensures words_after { words.new ≡ words_of (give_up_of (generator_of words.old)).next }
{
    jabulghi::record::jabulghi_give_up(words)
}
