// From a list of nodes to the tree of paths that it shows: definitions in specs/, laws in proofs/.
#![tactic(auto)]
