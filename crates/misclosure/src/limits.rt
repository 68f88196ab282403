// The limits of a listing (document 02, Job 13); specs/Misclosure.antt and crates/sums/specs/Sums.antt have the same.

use noisy_shot::TURN_STEPS;

// The shots of a listing.
pub const MOST_SHOTS: u32 = 500;

// The line of the last of them, after the header.
pub const LAST_LINE: u32 = MOST_SHOTS + 1;

// In mm.
pub const MOST_DISTANCE: u64 = 1008242;

// In steps.
pub const MOST_STEP: u64 = TURN_STEPS - 1;
