// The limits of a job (document 01, "A job and its listing"); specs/Limits.antt has the same.
use noisy_shot::TURN_STEPS;

// The bytes of a job.
pub const MOST_BYTES: usize = 60000;

// The shots of a job.
pub const MOST_SHOTS: u32 = 500;

// The line of the last of them, after the seeds and the sigmas.
pub const LAST_LINE: u32 = MOST_SHOTS + 2;

pub const MOST_SEED: u64 = 4294967295;

pub const MOST_SIGMA: u64 = 1000;

// In mm.
pub const MOST_DISTANCE: u64 = 1000000;

// In steps.
pub const MOST_BEARING: u64 = TURN_STEPS - 1;
