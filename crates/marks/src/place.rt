// Where a name stands in a set of 16 places, and where a new one goes.
ghost use Rattle.std.specs.Prelude.{◌≡◌, position};
ghost use Rattle.marks.specs.Marks.{has_name, is_free, save_place};
ghost use Rattle.marks.specs.Codes.{or_places, Within};

use crate::PLACES;
use crate::label::Label;

// Whether a place is used and has the name.
fn has_name(label: &Label, name: &[u8]) -> bool
    ensures { result ≡ has_name name.now label.now }
{
    label.used && label.name() == Some(name)
}

// The first place with the name.
pub fn place_of(labels: &[Label; PLACES], name: &[u8]) -> Option<usize>
    ensures { result ≡ position (has_name name.now) labels.now }
{
    labels.iter().position(|label| has_name(label, name))
}

// The first free place.
fn free_place(labels: &[Label; PLACES]) -> Option<usize>
    ensures { result ≡ position is_free labels.now }
{
    labels.iter().position(|label| !label.used)
}

// The place that a name is saved in: its own, else the first free one.
pub fn save_place(labels: &[Label; PLACES], name: &[u8]) -> Option<usize>
    ensures place { or_places result ≡ save_place labels.now name.now }
    ensures within { Within result }
{
    place_of(labels, name).or_else(|| free_place(labels))
}
