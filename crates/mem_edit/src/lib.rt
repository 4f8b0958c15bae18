// Changes of memory that stands for a state.
#![tactic(auto)]

pub mod blocks;
pub mod objects;
pub mod rows;
