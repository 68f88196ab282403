// The exact mathematics that the samples are compared with: definitions in specs/ and laws in proofs/ only.
#![tactic(auto)]
