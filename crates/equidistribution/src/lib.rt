// Maximal equidistribution of the streams: definitions in specs/, laws in proofs/.
#![tactic(auto)]
