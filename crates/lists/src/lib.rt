// Lists and sums of any kind: definitions in specs/, laws in proofs/.
#![tactic(auto)]
