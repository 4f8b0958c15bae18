// The lists of a recorded line: part numbers and pairs, in the bytes in which the store takes them.
#![tactic(auto)]

mod pair_lists;
mod part_numbers;

pub use pair_lists::read_pairs;
pub use part_numbers::numbers_field;
