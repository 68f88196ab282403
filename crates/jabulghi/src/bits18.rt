// The calls for samples of 18 bits (document 02, Job 8): the ones of 16 bits in all but the samples.
// Apart from those, since tools/contracts wants here, for each function that is exported, one of its name with its clauses.
ghost use Rattle.std.specs.Prelude.{◌≡◌, ◌<◌, ◌^◌, [], ◌∷◌, pos, length, get_or};
ghost use Rattle.radius.specs.Steps.{number_bits, inverse};
ghost use Rattle.box_muller.specs.Steps.{fraction_bits18};
ghost use Rattle.box_muller.specs.Sample.{samples_of, three_quarters};
ghost use Rattle.exact.specs.Pair.{Close};
ghost use Rattle.noise.specs.Noise.{pair_of, samples_in, block_of, block_holds, look_of, look_holds, take_of, take_holds};
ghost use Rattle.jabulghi.specs.Words.{words_of, generator_of};

use crate::words::{stored, unpacked};

// The two samples of k and v.
pub fn jabulghi_sample18(k: u64, v: u32, samples: &mut [i32; 2]) -> u32
    ensures code { result ≡ (samples_of fraction_bits18 k v).code }
    ensures samples_after { samples.new ≡ (samples_of fraction_bits18 k v).first ∷ (samples_of fraction_bits18 k v).second ∷ [] }
    ensures close { k < 2 ^ number_bits → v < 65536 → Close three_quarters fraction_bits18 (inverse k) v (get_or samples.new 0 (pos 0)) (get_or samples.new 1 (pos 0)) }
{
    sample::sample(k, v, samples)
}

// One pair of samples from a record.
pub fn jabulghi_pair18(words: &mut [u32; 10], samples: &mut [i32; 2]) -> u32
    ensures code { result ≡ (pair_of fraction_bits18 (generator_of words.old)).code }
    ensures samples_after { samples.new ≡ samples_in (pair_of fraction_bits18 (generator_of words.old)) }
    ensures words_after { words.new ≡ words_of (pair_of fraction_bits18 (generator_of words.old)).next }
{
    let g = unpacked(*words);
    stored(noise::pair(g, samples), words)
}

// A block of samples from a record, first and second alternating.
pub fn jabulghi_block18(words: &mut [u32; 10], block: &mut [i32]) -> u32
    ensures code { result ≡ (block_of (generator_of words.old) (length block.old)).code }
    ensures block_after { block.new ≡ block_holds fraction_bits18 (generator_of words.old) block.old }
    ensures words_after { words.new ≡ words_of (block_of (generator_of words.old) (length block.old)).next }
{
    let g = unpacked(*words);
    stored(noise::block(g, block), words)
}

// A look at the block that would come next; the record is only read.
pub fn jabulghi_look18(words: &[u32; 10], block: &mut [i32]) -> u32
    ensures code { result ≡ (look_of (generator_of words.now) (length block.old)).code }
    ensures block_after { block.new ≡ look_holds fraction_bits18 (generator_of words.now) block.old }
{
    let g = unpacked(*words);
    let shown = noise::look(g, block);
    shown.code
}

// The samples that were asked for.
pub fn jabulghi_take18(words: &mut [u32; 10], block: &mut [i32]) -> u32
    ensures code { result ≡ (take_of (generator_of words.old) (length block.old)).code }
    ensures block_after { block.new ≡ take_holds fraction_bits18 (generator_of words.old) block.old }
    ensures words_after { words.new ≡ words_of (take_of (generator_of words.old) (length block.old)).next }
{
    let g = unpacked(*words);
    stored(noise::take(g, block), words)
}
