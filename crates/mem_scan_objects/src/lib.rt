// The rows of objects, in memory that need not be whole.
#![tactic(auto)]

pub mod objects;
mod usual;
