// The makers' C interface to survey texts and the plays of a loop: each function is that of crate `jabulghi_survey`, with its clauses, exported.
#![tactic(auto)]

mod legs;
mod list;
mod miss;
mod plays;
