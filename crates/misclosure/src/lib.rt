// How far a loop misses (document 02, Job 13): the sums of a listing's shots; and how far at least and at most, where its distances are known only
// between two readings (Job 14).
#![tactic(auto)]

mod entry;
pub mod limits;
pub mod printer;
mod state;
mod sum;
mod walk;

ghost use Rattle.std.specs.Prelude.{◌≡◌, true, false};
ghost use Rattle.misclosure.specs.Misclosure.{listing_of, miss_of, intervals_of, is_between};

use crate::walk::read_listing;
use listing_rows::read::{Kind, is_header};
pub use sum::millimetres;
use text::line::lines_of;

// The refusal code, 0 where the listing is accepted; the line, 0 where no line is at fault; east and north at 2^30, and each in whole
// millimetres.
// A code and a line, and no `Result`: the theorems of specs/Theorems.antt speak of this answer, and of the next.
#[derive(Clone, Copy)]
pub struct Miss {
    pub code: u32,
    pub line: u32,
    pub east: i64,
    pub north: i64,
    pub easting: i64,
    pub northing: i64,
}

// The lowest and the highest of a sum.
#[derive(Clone, Copy)]
pub struct Ends {
    pub low: i64,
    pub high: i64,
}

// A miss with the lowest and the highest of each sum.
#[derive(Clone, Copy)]
pub struct IntervalSums {
    pub code: u32,
    pub line: u32,
    pub east: Ends,
    pub north: Ends,
    pub easting: Ends,
    pub northing: Ends,
}

// The sums of a listing.
pub fn misclosure(text: &[u8]) -> Miss
    ensures { result ≡ miss_of (listing_of false text.now) }
{
    match read_listing(text, Kind::OneDistance) {
        Ok(sums) => {
            let easting = millimetres(sums.east.low);
            let northing = millimetres(sums.north.low);
            Miss {
                code: 0,
                line: 0,
                east: sums.east.low,
                north: sums.north.low,
                easting,
                northing,
            }
        }
        Err(bad) => Miss {
            code: bad.cause.number(),
            line: bad.line,
            east: 0,
            north: 0,
            easting: 0,
            northing: 0,
        },
    }
}

// The lowest and the highest sums of a listing of distances between two readings.
pub fn intervals(text: &[u8]) -> IntervalSums
    ensures { result ≡ intervals_of (listing_of true text.now) }
{
    match read_listing(text, Kind::TwoReadings) {
        Ok(sums) => {
            let easting = sums.east.in_millimetres();
            let northing = sums.north.in_millimetres();
            IntervalSums {
                code: 0,
                line: 0,
                east: sums.east,
                north: sums.north,
                easting,
                northing,
            }
        }
        Err(bad) => {
            let none = Ends { low: 0, high: 0 };
            IntervalSums {
                code: bad.cause.number(),
                line: bad.line,
                east: none,
                north: none,
                easting: none,
                northing: none,
            }
        }
    }
}

// Whether a listing is headed as one of distances between two readings.
pub fn is_between(text: &[u8]) -> bool
    ensures { result ≡ is_between text.now }
{
    lines_of(text)
        .next()
        .is_some_and(|header| is_header(header, Kind::TwoReadings))
}
