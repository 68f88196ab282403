// The sum of the samples held, and the sum of their squares.
ghost use Rattle.std.specs.Prelude.{◌≡◌, ◌≤◌, ◌^◌, ◌+ℤ◌, ◌-ℤ◌, ◌*ℤ◌, nat_abs};
ghost use Rattle.drift.specs.Drift.{most_sum, sums_of};

#[derive(Clone, Copy)]
pub struct Sums {
    pub sum: i64,
    pub squares: i64,
}

fn square(x: i64) -> i64
    requires { nat_abs x ≤ 2 ^ 15 }
    ensures { (result ≡ x *ℤ x) × (nat_abs result ≤ 2 ^ 30) }
{
    x * x
}

// A sum after one number left and another came.
fn exchanged(sum: i64, old: i64, new: i64) -> i64
    requires { (nat_abs sum ≤ most_sum) × (nat_abs old ≤ 2 ^ 30) × (nat_abs new ≤ 2 ^ 30) }
    ensures { result ≡ sum -ℤ old +ℤ new }
{
    sum - old + new
}

// Both sums after one sample left and another came.
// The two sums one by one, as `sums_of` of specs/Drift.antt takes them of a window.
pub fn sums_after(sum: i64, squares: i64, out: i16, sample: i16) -> Sums
    requires { (nat_abs sum ≤ most_sum) × (nat_abs squares ≤ most_sum) }
    ensures { result ≡ sums_of sum squares out sample }
{
    let old = i64::from(out);
    let new = i64::from(sample);
    Sums {
        sum: exchanged(sum, old, new),
        squares: exchanged(squares, square(old), square(new)),
    }
}
