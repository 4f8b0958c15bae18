// The functions that C calls, each slice a pointer and a length (include/rathnodi.h): each is crate `rathnodi`'s function of that name, with
// its clauses.
#![tactic(auto)]

pub mod carry;
pub mod fresh;
pub mod objects;
pub mod recordings;
pub mod uploads;
