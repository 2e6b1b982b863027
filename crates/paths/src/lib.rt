// Paths, their order, and the trees that they make: definitions in specs/, laws in proofs/.
#![tactic(auto)]
