// The makers' C interface to windows: each function is that of crate `jabulghi_window`, with its clauses, exported.
#![tactic(auto)]

ghost use Rattle.std.specs.Prelude.{◌≡◌};
ghost use Rattle.drift.specs.Drift.{window_of, made_of, pushed_of, pushed_all};

// A window for the latest n samples.
#[unsafe(no_mangle)]
pub extern "C" fn jabulghi_window_make_members(
    size: &mut u32,
    held: &mut u32,
    place: &mut u32,
    places: &mut [i16; 4096],
    sum: &mut i64,
    squares: &mut i64,
    n: u32,
) -> u32
    ensures code { result ≡ (made_of n).code }
    ensures window_after { window_of size.new held.new place.new places.new sum.new squares.new ≡ (made_of n).window }
{
    jabulghi_window::jabulghi_window_make_members(size, held, place, places, sum, squares, n)
}

// One sample.
#[unsafe(no_mangle)]
pub extern "C" fn jabulghi_window_push_members(
    size: &mut u32,
    held: &mut u32,
    place: &mut u32,
    places: &mut [i16; 4096],
    sum: &mut i64,
    squares: &mut i64,
    sample: i16,
) -> u32
    ensures code { result ≡ (pushed_of (window_of size.old held.old place.old places.old sum.old squares.old) sample).code }
    ensures window_after { window_of size.new held.new place.new places.new sum.new squares.new ≡ (pushed_of (window_of size.old held.old place.old places.old sum.old squares.old) sample).window }
{
    jabulghi_window::jabulghi_window_push_members(size, held, place, places, sum, squares, sample)
}

// Many samples, as if they were pushed one by one.
#[unsafe(no_mangle)]
pub extern "C" fn jabulghi_window_push_all_members(
    size: &mut u32,
    held: &mut u32,
    place: &mut u32,
    places: &mut [i16; 4096],
    sum: &mut i64,
    squares: &mut i64,
    samples: &[i16],
) -> u32
    ensures code { result ≡ (pushed_all (window_of size.old held.old place.old places.old sum.old squares.old) samples.now).code }
    ensures window_after { window_of size.new held.new place.new places.new sum.new squares.new ≡ (pushed_all (window_of size.old held.old place.old places.old sum.old squares.old) samples.now).window }
{
    jabulghi_window::jabulghi_window_push_all_members(
        size, held, place, places, sum, squares, samples,
    )
}
