// The recordings of document 02, E8: the definitions stand in specs/, the theorems in proofs/. It has no code.
#![tactic(auto)]
