// The makers' C interface to survey texts and the plays of a loop: each function equals the call below it, on the caller's memory (include/jabulghi.h).
// Many bodies are alike: call, store the line and the length, return the code. tools/contracts wants here, for each function that is exported, one of
// its name with its clauses.
#![tactic(auto)]

pub mod legs;
pub mod list;
pub mod miss;
pub mod plays;
