// The sums of a run of shots, and the exact sums: definitions in specs/, laws in proofs/.
#![tactic(auto)]
