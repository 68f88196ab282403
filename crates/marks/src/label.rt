// What a place of a set is known by.
ghost use Rattle.std.specs.Prelude.{◌≡◌, ◌≤◌, ◌<◌, take, MatchOption};
ghost use Rattle.text.specs.Limits.{name_length};
ghost use Rattle.marks.specs.Marks.{label_of, no_label};

use text::buffer::put;
use text::limits::NAME_LENGTH;

// What a place is known by: the first bytes are the name, as many as its length. A free place is known by nothing.
// A flag, a length and all bytes, and no `Option` of a slice: the header's struct jabulghi_marks has these
// members, and a caller may put what it likes there.
#[derive(Clone, Copy)]
pub struct Label {
    pub used: bool,
    pub length: u32,
    pub bytes: [u8; NAME_LENGTH],
}

impl Label {
    // The name, where the length is one that a name can have.
    pub(crate) fn name(&self) -> Option<&[u8]>
        ensures { MatchOption result (name_length < self.now.length) (λ name. (self.now.length ≤ name_length) × (name.now ≡ take self.now.length self.now.bytes)) }
    {
        self.bytes.get(..self.length as usize)
    }
}

// The label of a name: as many of its bytes as fit, and 0 after them.
pub fn label_of(name: &[u8]) -> Label
    ensures { result ≡ label_of name.now }
{
    let mut bytes = [0u8; NAME_LENGTH];
    let length = put(&mut bytes, 0, name);
    Label {
        used: true,
        length: length as u32,
        bytes,
    }
}

// The label of a free place, as a drop leaves it.
pub fn no_label() -> Label
    ensures { result ≡ no_label }
{
    Label {
        used: false,
        length: 0,
        bytes: [0; NAME_LENGTH],
    }
}
