// The period of the streams: definitions in specs/, laws in proofs/.
#![tactic(auto)]
