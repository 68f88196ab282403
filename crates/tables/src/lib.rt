// The tables of logarithms and rotations as constants (document 01, 'Radius' and 'Angle and sample'). What their entries promise is in
// specs/Promise.antt. The steps of a sample read the matches of the look-up crates, which hold the same entries, since a constant array is
// written to the stack at each use. The private functions stand here for their contracts, which hold the constants to the definitions.
#![tactic(auto)]

mod cosines;
mod logarithms;
mod sines;

ghost use Rattle.std.specs.Prelude.{◌≡◌};
ghost use Rattle.tables.specs.Values.{log_coarse_list, log_fine_list, cos_coarse_list, sin_coarse_list, cos_fine_list, sin_fine_list};
ghost use Rattle.tables.specs.Tables.{ln_two};

// A: ln(h/256), h from 256 to 511, at 2^40.
fn log_coarse() -> [u64; 256]
    ensures { result ≡ log_coarse_list }
{
    logarithms::LOG_COARSE
}

// B: ln(1 + i/65536), i from 0 to 255, at 2^40.
fn log_fine() -> [u64; 256]
    ensures { result ≡ log_fine_list }
{
    logarithms::LOG_FINE
}

// C: the cosine of a/512 of a turn, a from 0 to 127, at 2^30.
fn cos_coarse() -> [u64; 128]
    ensures { result ≡ cos_coarse_list }
{
    cosines::COS_COARSE
}

// D: the sine of a/512 of a turn, a from 0 to 127, at 2^30.
fn sin_coarse() -> [u64; 128]
    ensures { result ≡ sin_coarse_list }
{
    sines::SIN_COARSE
}

// c: the cosine of b/65536 of a turn, b from 0 to 127, at 2^30.
fn cos_fine() -> [u64; 128]
    ensures { result ≡ cos_fine_list }
{
    cosines::COS_FINE
}

// s: the sine of b/65536 of a turn, b from 0 to 127, at 2^30.
fn sin_fine() -> [u64; 128]
    ensures { result ≡ sin_fine_list }
{
    sines::SIN_FINE
}

// K: ln 2, at 2^40.
pub fn ln_two() -> u64
    ensures { result ≡ ln_two }
{
    logarithms::LN_TWO
}
