// The sums of a listing: the miss of a traverse, and the lowest and highest of distances between two readings.
ghost use Rattle.std.specs.Prelude.{◌≡◌, List, [], ◌∷◌, true, false};
ghost use Rattle.sums.specs.Sums.{sine, cosine};
ghost use Rattle.sums.specs.Exact.{exact_sine, exact_cosine, Close};
ghost use Rattle.sums.specs.Spans.{Span, low_shots, Spans};
ghost use Rattle.misclosure.specs.Misclosure.{accepted, listing_of, miss_of, intervals_of};
ghost use Rattle.jabulghi_survey.specs.Stored.{four_of};

// The sums of a listing, east and north: at 2^30 and in whole millimetres; and the line.
#[unsafe(no_mangle)]
pub extern "C" fn jabulghi_misclosure(
    text: &[u8],
    sums: &mut [i64; 2],
    millimetres: &mut [i64; 2],
    line: &mut u32,
) -> u32
    ensures code { result ≡ (miss_of (listing_of false text.now)).code }
    ensures sums_after { sums.new ≡ (miss_of (listing_of false text.now)).east ∷ (miss_of (listing_of false text.now)).north ∷ [] }
    ensures millimetres_after { millimetres.new ≡ (miss_of (listing_of false text.now)).easting ∷ (miss_of (listing_of false text.now)).northing ∷ [] }
    ensures line_after { line.new ≡ (miss_of (listing_of false text.now)).line }
    ensures close { (l : List Span) → listing_of false text.now ≡ accepted l → Close 3 (low_shots l) (miss_of (listing_of false text.now)).easting (miss_of (listing_of false text.now)).northing }
{
    jabulghi_survey::miss::jabulghi_misclosure(text, sums, millimetres, line)
}

// The lowest and the highest sums of a listing of distances between two readings: east low, east high, north low, north high; at 2^30 and in whole
// millimetres; and the line.
#[unsafe(no_mangle)]
pub extern "C" fn jabulghi_intervals(
    text: &[u8],
    sums: &mut [i64; 4],
    millimetres: &mut [i64; 4],
    line: &mut u32,
) -> u32
    ensures code { result ≡ (intervals_of (listing_of true text.now)).code }
    ensures sums_after { sums.new ≡ four_of (intervals_of (listing_of true text.now)).east (intervals_of (listing_of true text.now)).north }
    ensures millimetres_after { millimetres.new ≡ four_of (intervals_of (listing_of true text.now)).easting (intervals_of (listing_of true text.now)).northing }
    ensures line_after { line.new ≡ (intervals_of (listing_of true text.now)).line }
    ensures spans { (l : List Span) → listing_of true text.now ≡ accepted l → Spans sine exact_sine l (intervals_of (listing_of true text.now)).east.low (intervals_of (listing_of true text.now)).east.high (intervals_of (listing_of true text.now)).easting.low (intervals_of (listing_of true text.now)).easting.high × Spans cosine exact_cosine l (intervals_of (listing_of true text.now)).north.low (intervals_of (listing_of true text.now)).north.high (intervals_of (listing_of true text.now)).northing.low (intervals_of (listing_of true text.now)).northing.high }
{
    jabulghi_survey::miss::jabulghi_intervals(text, sums, millimetres, line)
}
