// Pairs written: those of a request to memory, in order, and those in memory to an answer.
#![tactic(auto)]

pub mod sorting;
pub mod writing;

pub use sorting::write_kept;
pub use writing::encode;
