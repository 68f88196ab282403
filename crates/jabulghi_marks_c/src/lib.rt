// The makers' C interface to marks: each function is that of crate `jabulghi_marks`, with its clauses, exported.
#![tactic(auto)]

mod calls;
