// A saved record is its words, copied as they stand; an accepted call writes its own place alone, a refused one nothing.
// Exported, so under the header's names and with its parameters.
ghost use Rattle.std.specs.Prelude.{◌≡◌, ◌<◌};
ghost use Rattle.jabulghi.specs.Words.{generator_of};
ghost use Rattle.marks.specs.Marks.{places, place_to_save, place_to_return, place_to_drop};
ghost use Rattle.jabulghi_marks.specs.Members.{members, labels_of, stored_in, saved_in, returned_words, dropped_in};

use jabulghi_marks::WORDS;
use marks::PLACES;
use text::limits::NAME_LENGTH;

// Saves the record under a name.
#[unsafe(no_mangle)]
pub extern "C" fn jabulghi_marks_save_members(
    used: &mut [u32; PLACES],
    lengths: &mut [u32; PLACES],
    names: &mut [u8; PLACES * NAME_LENGTH],
    records: &mut [u32; PLACES * WORDS],
    words: &[u32; WORDS],
    name: &[u8],
) -> u32
    ensures code { result ≡ (place_to_save (labels_of used.old lengths.old names.old) (generator_of words.now) name.now).code }
    ensures members_after { members used.new lengths.new names.new records.new ≡ saved_in (members used.old lengths.old names.old records.old) words.now name.now }
{
    jabulghi_marks::calls::jabulghi_marks_save_members(used, lengths, names, records, words, name)
}

// Returns to the record saved under a name.
#[unsafe(no_mangle)]
pub extern "C" fn jabulghi_marks_return_members(
    used: &[u32; PLACES],
    lengths: &[u32; PLACES],
    names: &[u8; PLACES * NAME_LENGTH],
    records: &[u32; PLACES * WORDS],
    words: &mut [u32; WORDS],
    name: &[u8],
) -> u32
    ensures code { result ≡ (place_to_return (labels_of used.now lengths.now names.now) (generator_of words.old) name.now).code }
    ensures words_after { words.new ≡ returned_words (members used.now lengths.now names.now records.now) words.old name.now }
{
    jabulghi_marks::calls::jabulghi_marks_return_members(used, lengths, names, records, words, name)
}

// Drops the mark of a name.
#[unsafe(no_mangle)]
pub extern "C" fn jabulghi_marks_drop_members(
    used: &mut [u32; PLACES],
    lengths: &mut [u32; PLACES],
    names: &mut [u8; PLACES * NAME_LENGTH],
    records: &mut [u32; PLACES * WORDS],
    name: &[u8],
) -> u32
    ensures code { result ≡ (place_to_drop (labels_of used.old lengths.old names.old) name.now).code }
    ensures members_after { members used.new lengths.new names.new records.new ≡ dropped_in (members used.old lengths.old names.old records.old) name.now }
{
    jabulghi_marks::calls::jabulghi_marks_drop_members(used, lengths, names, records, name)
}
