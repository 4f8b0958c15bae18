// Changes of uploads and parts, in memory that stands for a state.
#![tactic(auto)]

pub mod parts;
pub mod uploads;
