// The makers' C interface to records and to samples of 16 and 18 bits: each function is that of crate `jabulghi`, with its clauses, exported.
// One function for each name of the header, so those of 16 and of 18 bits are twins.
#![tactic(auto)]

mod bits18;
mod block;
mod pair;
mod record;
