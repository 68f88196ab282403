// Every listing of the listing call whose shots follow each other is read back: the statement in specs/, its proof in proofs/.
#![tactic(auto)]
