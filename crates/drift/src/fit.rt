// What is refused: an unfit N, and a sum beyond the limit.
ghost use Rattle.std.specs.Prelude.{◌≡◌};
ghost use Rattle.drift.specs.Drift.{size_fit, within_limit};

// The largest N.
const MOST: u32 = 4096;
// A sum may be as large as this in size.
const LIMIT: i64 = 1 << 42;

#[tactic(auto, unfolding(crate::specs::Drift::size_fit))]
pub fn is_size(n: u32) -> bool
    ensures { result ≡ size_fit n }
{
    (1..=MOST).contains(&n)
}

#[tactic(auto, unfolding(crate::specs::Drift::within_limit))]
pub fn is_within(sum: i64) -> bool
    ensures { result ≡ within_limit sum }
{
    (-LIMIT..=LIMIT).contains(&sum)
}
