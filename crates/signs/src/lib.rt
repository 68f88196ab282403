// The size of a signed number of 16 bits; proofs/Sizes.antt has the laws on signs and sizes at any width.
#![tactic(auto)]

ghost use Rattle.std.specs.Prelude.{◌≡◌, ◌≤◌, nat_abs};

// The size of a sample.
pub fn size_of(sample: i16) -> u32
    ensures { (result ≡ nat_abs sample) × (result ≤ 32768) }
{
    sample.unsigned_abs() as u32
}
