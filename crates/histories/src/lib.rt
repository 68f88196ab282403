// Runs of calls on a record: definitions in specs/, laws in proofs/.
#![tactic(auto)]
