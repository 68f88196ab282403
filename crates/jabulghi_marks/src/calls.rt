// A saved record is its words, copied as they stand; an accepted call writes its own place alone, a refused one nothing.
ghost use Rattle.std.specs.Prelude.{◌≡◌, ◌<◌};
ghost use Rattle.jabulghi.specs.Words.{generator_of};
ghost use Rattle.marks.specs.Marks.{places, place_to_save, place_to_return, place_to_drop};
ghost use Rattle.jabulghi_marks.specs.Members.{members, labels_of, stored_in, saved_in, returned_words, dropped_in};

use crate::members::{WORDS, elements_at, labels_of};
use jabulghi::words::unpacked;
use marks::PLACES;
use marks::call::{place_to_drop, place_to_return, place_to_save};
use marks::label::{Label, label_of, no_label};
use text::buffer::put;
use text::limits::NAME_LENGTH;

// A label and the words of a record in a place.
// The members come one by one: the clauses of the C calls name each.
fn store(
    used: &mut [u32; PLACES],
    lengths: &mut [u32; PLACES],
    names: &mut [u8; PLACES * NAME_LENGTH],
    records: &mut [u32; PLACES * WORDS],
    place: usize,
    mark: u32,
    label: Label,
    words: [u32; WORDS],
)
    requires { place < places }
    ensures { members used.new lengths.new names.new records.new ≡ stored_in (members used.old lengths.old names.old records.old) place mark label words }
{
    let bytes = label.bytes;
    used[place] = mark;
    lengths[place] = label.length;
    put(names, place * NAME_LENGTH, &bytes);
    let from = place * WORDS;
    records[from..from + WORDS].copy_from_slice(&words);
}

// Saves the record under a name.
// The three calls begin alike, and stay apart: tools/contracts wants here, for each function that is exported, one of its name with its clauses, and each
// asks `marks` for another place.
// Each tests a code: `Placed` has one, since the definitions of `marks` (place_to_save, place_to_return, place_to_drop) and this crate's `saved_in` speak of it.
pub fn jabulghi_marks_save_members(
    used: &mut [u32; PLACES],
    lengths: &mut [u32; PLACES],
    names: &mut [u8; PLACES * NAME_LENGTH],
    records: &mut [u32; PLACES * WORDS],
    words: &[u32; WORDS],
    name: &[u8],
) -> u32
    ensures code { result ≡ (place_to_save (labels_of used.old lengths.old names.old) (generator_of words.now) name.now).code }
    ensures members_after { members used.new lengths.new names.new records.new ≡ saved_in (members used.old lengths.old names.old records.old) words.now name.now }
{
    let labels = labels_of(*used, *lengths, *names);
    let g = unpacked(*words);
    let placed = place_to_save(labels, g, name);
    let code = placed.code;
    if code != 0 {
        return code;
    }
    let label = label_of(name);
    store(
        used,
        lengths,
        names,
        records,
        placed.place,
        1,
        label,
        *words,
    );
    code
}

// Returns to the record saved under a name.
pub fn jabulghi_marks_return_members(
    used: &[u32; PLACES],
    lengths: &[u32; PLACES],
    names: &[u8; PLACES * NAME_LENGTH],
    records: &[u32; PLACES * WORDS],
    words: &mut [u32; WORDS],
    name: &[u8],
) -> u32
    ensures code { result ≡ (place_to_return (labels_of used.now lengths.now names.now) (generator_of words.old) name.now).code }
    ensures words_after { words.new ≡ returned_words (members used.now lengths.now names.now records.now) words.old name.now }
{
    let labels = labels_of(*used, *lengths, *names);
    let g = unpacked(*words);
    let placed = place_to_return(labels, g, name);
    let code = placed.code;
    let place = placed.place;
    if code != 0 {
        return code;
    }
    *words = elements_at(records, place * WORDS);
    code
}

// Drops the mark of a name.
pub fn jabulghi_marks_drop_members(
    used: &mut [u32; PLACES],
    lengths: &mut [u32; PLACES],
    names: &mut [u8; PLACES * NAME_LENGTH],
    records: &mut [u32; PLACES * WORDS],
    name: &[u8],
) -> u32
    ensures code { result ≡ (place_to_drop (labels_of used.old lengths.old names.old) name.now).code }
    ensures members_after { members used.new lengths.new names.new records.new ≡ dropped_in (members used.old lengths.old names.old records.old) name.now }
{
    let labels = labels_of(*used, *lengths, *names);
    let placed = place_to_drop(labels, name);
    let code = placed.code;
    if code != 0 {
        return code;
    }
    let label = no_label();
    store(
        used,
        lengths,
        names,
        records,
        placed.place,
        0,
        label,
        [0; WORDS],
    );
    code
}
