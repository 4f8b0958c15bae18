// Pairs in memory, two length bytes for each in the tables, keys and values in the arena: summed and tested.
#![tactic(auto)]

pub mod block;
pub mod stored;

pub use block::block_ok;
pub use stored::{end, stored_ok, sum_of};
