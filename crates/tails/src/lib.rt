// How the samples are distributed over all 2^64 inputs: definitions in specs/, laws in proofs/.
#![tactic(auto)]
