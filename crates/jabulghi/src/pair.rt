// Two samples: from two numbers, and from a record. Apart from those of bits18.rt, for the reason in lib.rt.
ghost use Rattle.std.specs.Prelude.{◌≡◌, ◌<◌, ◌^◌, [], ◌∷◌, pos, get_or};
ghost use Rattle.radius.specs.Steps.{number_bits, inverse};
ghost use Rattle.box_muller.specs.Steps.{fraction_bits};
ghost use Rattle.box_muller.specs.Sample.{samples_of, nine_sixteenths};
ghost use Rattle.box_muller.specs.DataSheet.{thirty_three_sixty_fourths};
ghost use Rattle.exact.specs.Pair.{Close};
ghost use Rattle.noise.specs.Noise.{pair_of, samples_in};
ghost use Rattle.jabulghi.specs.Words.{words_of, generator_of};

use crate::words::{stored, unpacked};

// The two samples of k and v.
pub fn jabulghi_sample(k: u64, v: u32, samples: &mut [i16; 2]) -> u32
    ensures code { result ≡ (samples_of fraction_bits k v).code }
    ensures samples_after { samples.new ≡ (samples_of fraction_bits k v).first ∷ (samples_of fraction_bits k v).second ∷ [] }
    ensures close { k < 2 ^ number_bits → v < 65536 → Close nine_sixteenths fraction_bits (inverse k) v (get_or samples.new 0 (pos 0)) (get_or samples.new 1 (pos 0)) }
    ensures closer { k < 2 ^ number_bits → v < 65536 → Close thirty_three_sixty_fourths fraction_bits (inverse k) v (get_or samples.new 0 (pos 0)) (get_or samples.new 1 (pos 0)) }
{
    sample::sample(k, v, samples)
}

// One pair of samples from a record.
pub fn jabulghi_pair(words: &mut [u32; 10], samples: &mut [i16; 2]) -> u32
    ensures code { result ≡ (pair_of fraction_bits (generator_of words.old)).code }
    ensures samples_after { samples.new ≡ samples_in (pair_of fraction_bits (generator_of words.old)) }
    ensures words_after { words.new ≡ words_of (pair_of fraction_bits (generator_of words.old)).next }
{
    let g = unpacked(*words);
    stored(noise::pair(g, samples), words)
}
