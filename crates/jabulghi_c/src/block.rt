// Blocks of samples from a record. Exported, so under the header's names and with its parameters.
ghost use Rattle.std.specs.Prelude.{◌≡◌, length};
ghost use Rattle.box_muller.specs.Steps.{fraction_bits};
ghost use Rattle.noise.specs.Noise.{block_of, block_holds, look_of, look_holds, take_of, take_holds};
ghost use Rattle.jabulghi.specs.Words.{words_of, generator_of};

// A block of samples from a record, first and second alternating.
#[unsafe(no_mangle)]
pub extern "C" fn jabulghi_block(words: &mut [u32; 10], block: &mut [i16]) -> u32
    ensures code { result ≡ (block_of (generator_of words.old) (length block.old)).code }
    ensures block_after { block.new ≡ block_holds fraction_bits (generator_of words.old) block.old }
    ensures words_after { words.new ≡ words_of (block_of (generator_of words.old) (length block.old)).next }
{
    jabulghi::block::jabulghi_block(words, block)
}

// A look at the block that would come next; the record is only read.
#[unsafe(no_mangle)]
pub extern "C" fn jabulghi_look(words: &[u32; 10], block: &mut [i16]) -> u32
    ensures code { result ≡ (look_of (generator_of words.now) (length block.old)).code }
    ensures block_after { block.new ≡ look_holds fraction_bits (generator_of words.now) block.old }
{
    jabulghi::block::jabulghi_look(words, block)
}

// The samples that were asked for.
#[unsafe(no_mangle)]
pub extern "C" fn jabulghi_take(words: &mut [u32; 10], block: &mut [i16]) -> u32
    ensures code { result ≡ (take_of (generator_of words.old) (length block.old)).code }
    ensures block_after { block.new ≡ take_holds fraction_bits (generator_of words.old) block.old }
    ensures words_after { words.new ≡ words_of (take_of (generator_of words.old) (length block.old)).next }
{
    jabulghi::block::jabulghi_take(words, block)
}
