// The limits of a listing; specs/Limits.antt has the same.
use job_reader::limits::MOST_SHOTS;
use listing_rows::write::{HEADER_LENGTH, ROW_ROOM};

// The most bytes of a listing: the header, a row for each shot, and the last row.
pub const LONGEST_LISTING: usize = HEADER_LENGTH + ROW_ROOM * MOST_SHOTS as usize + 8;

// The bytes of the listing program's buffer.
pub const LISTING_ROOM: usize = 20480;
