// The demands, as theorems over the definitions that the contracts cite: in proofs/.
#![tactic(auto)]
