// Marks to come back to (document 02, Job 11): of a set of 16 places, each free or a name of the station kind with a generator record, the labels
// alone decide what a call refuses and which place it is about.
#![tactic(auto)]

pub mod call;
pub mod label;
mod place;

// The places of a set.
pub const PLACES: usize = 16;
