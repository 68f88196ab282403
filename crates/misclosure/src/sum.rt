// Sums of signed products at 2^30.
ghost use Rattle.std.specs.Prelude.{◌≡◌, ◌^◌, ◌≤◌, ◌<◌, pos, nat_abs, ◌+ℤ◌, ◌*ℤ◌};
ghost use Rattle.sums.specs.Sums.{most_distance, rounded};
ghost use Rattle.misclosure.specs.Misclosure.{rounded_ends};
ghost use Rattle.misclosure.specs.Private.{SmallEnds, widened_by};

use crate::Ends;

// Half a millimetre at 2^30.
const HALF: i64 = 1 << 29;

// A distance times a sine or a cosine, added to a sum.
fn added(sum: i64, distance: u64, factor: i64) -> i64
    requires { (nat_abs sum < 2 ^ 62) × (distance ≤ most_distance) × (nat_abs factor ≤ 2 ^ 30) }
    ensures { result ≡ sum +ℤ pos distance *ℤ factor }
{
    sum + distance as i64 * factor
}

// A sum at 2^30 in whole millimetres, halves away from zero, by way of its half millimetres: `/` goes towards zero.
pub fn millimetres(sum: i64) -> i64
    ensures { result ≡ rounded sum }
{
    let halves = sum / HALF;
    if halves < 0 {
        return (halves - 1) / 2;
    }
    (halves + 1) / 2
}

impl Ends {
    // A shot's least and greatest product added: where the factor is negative, the longest distance gives the least.
    pub(crate) fn widened(self, low: u64, high: u64, factor: i64) -> Ends
        requires { SmallEnds self × (low ≤ most_distance) × (high ≤ most_distance) × (nat_abs factor ≤ 2 ^ 30) }
        ensures { result ≡ widened_by factor low high self }
    {
        if factor < 0 {
            let least = added(self.low, high, factor);
            let greatest = added(self.high, low, factor);
            return Ends {
                low: least,
                high: greatest,
            };
        }
        let least = added(self.low, low, factor);
        let greatest = added(self.high, high, factor);
        Ends {
            low: least,
            high: greatest,
        }
    }

    // Both in whole millimetres.
    pub(crate) fn in_millimetres(self) -> Ends
        requires { SmallEnds self }
        ensures { result ≡ rounded_ends self }
    {
        let low = millimetres(self.low);
        let high = millimetres(self.high);
        Ends { low, high }
    }
}
