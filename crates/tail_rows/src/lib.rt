// How many of the 2^64 inputs give large samples, row by row: the tables in specs/, laws in proofs/.
#![tactic(auto)]
