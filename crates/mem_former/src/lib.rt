// Memory as it stood before E2, E6 and E7, with the layout before E6 in definitions of its own, and the grammar of RFC 3629 as a relation:
// definitions in specs/, theorems in proofs/. It has no code.
#![tactic(auto)]
