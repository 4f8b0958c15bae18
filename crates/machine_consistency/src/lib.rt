// What is read at a path is what the last accepted call that writes it left there, for every list of the machine's calls: the definitions
// stand in specs/, the theorems in proofs/. It has no code.
#![tactic(auto)]
