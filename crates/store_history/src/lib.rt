// Demand 3 is a theorem about every run of the calls (proofs/Demand3.antt); the auditor's two questions are its neighbours
// (proofs/Reading.antt, proofs/Aborted.antt). Here a caller makes real calls and concludes by it.
#![tactic(auto)]

pub mod batch;
