// Demand 3 and the auditor's two questions for a C program: theorems about every list of exported calls (proofs/Demand3.antt,
// proofs/Questions.antt), and all that such a program knows (proofs/Known.antt). Crate `c_shift` concludes by them.
#![tactic(auto)]
