// The members of a set by value: what stands in a place, and members with one place written.
ghost use Rattle.std.specs.Prelude.{◌≡◌, ◌+◌, ◌<◌, ◌≤◌, length, take, drop};
ghost use Rattle.marks.specs.Marks.{places};
ghost use Rattle.jabulghi_marks.specs.Members.{labels_of};

use marks::PLACES;
use marks::label::{Label, no_label};
use text::limits::NAME_LENGTH;

// The words of a record.
pub const WORDS: usize = 10;

// The N elements from a place on: the bytes of a name, or the words of a record.
pub fn elements_at<T: Copy, const N: usize>(all: &[T], at: usize) -> [T; N]
    requires { at + N ≤ length all.now }
    ensures { result ≡ take N (drop at all.now) }
{
    *all[at..].first_chunk().unwrap()
}

// The labels of the places.
// By index: the header's struct jabulghi_marks has one array for each member.
pub fn labels_of(
    used: [u32; PLACES],
    lengths: [u32; PLACES],
    names: [u8; PLACES * NAME_LENGTH],
) -> [Label; PLACES]
    ensures { result ≡ labels_of used lengths names }
{
    let mut labels = [no_label(); PLACES];
    for (i, label) in labels.iter_mut().enumerate() {
        *label = Label {
            used: used[i] != 0,
            length: lengths[i],
            bytes: elements_at(&names, i * NAME_LENGTH),
        };
    }
    labels
}
