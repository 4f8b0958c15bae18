// The pairs of a request, one by one: where each stands, and the rules for keys and values.
#![tactic(auto)]

pub mod front;
pub mod rules;

// The most pairs of an object or an upload.
pub const PAIRS_MOST: usize = 8;
