// The limits of fields.

// The letters and digits of a name.
pub const NAME_LENGTH: usize = 12;

// The digits of a digit string.
pub const MOST_DIGITS: usize = 10;
