// The rows of a listing, written and read (document 01, "A job and its listing"; document 02, Jobs 13 and 14): what is written is read back as it was.
#![tactic(auto)]

pub mod read;
pub mod write;
