// What each step does to nodes, rows, regions, totals and published count: its notions in specs/, its laws in proofs/.
#![tactic(auto)]
