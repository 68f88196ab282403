// The probability that a normal number is large, and how near the shares of inputs come to it: definitions in specs/, laws in proofs/.
#![tactic(auto)]
