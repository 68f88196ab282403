// The makers' C interface to marks: each function equals the call of crate `marks`. The caller's set comes as its members one by one, in the order of
// the header's struct jabulghi_marks, whose inline functions take it apart.
#![tactic(auto)]

pub mod calls;
mod members;

pub use members::WORDS;
