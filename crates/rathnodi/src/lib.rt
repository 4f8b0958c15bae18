// The store as C sees it: numbers and byte slices (include/rathnodi.h). Crate `rathnodi_c` exports each of these functions to C, by the same
// name and with the same clauses; a crate of Rattle makes the same calls by them, as `c_history` and `c_shift` do.
#![tactic(auto)]

pub mod carry;
pub mod fresh;
pub mod objects;
pub mod recordings;
pub mod uploads;

// The one right length of a reply.
const REPLY_LEN: usize = 48;
