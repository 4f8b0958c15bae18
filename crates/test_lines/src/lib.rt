// A line that says a call: its word and fields, and what the call answered, printed after it.
// A test program's crate: its contracts have what safety asks; what it prints is compared with a stored output.
#![tactic(auto)]

pub mod answers;
pub mod fields;
pub mod room;
pub mod words;
