// The store's calls: FRESH, document 01's eleven, and document 02's DELETE_OBJECTS, which also takes its places as bytes,
// SWEEP and CARRY_OVER. Each promises `Made` (crate `call_contract`), FRESH `MadeFresh`, CARRY_OVER `Carried` (crate
// `call_carry_over`), and none has a precondition.
#![tactic(auto)]

pub use call_abort::abort;
pub use call_carry_over::carry_over;
pub use call_commit::commit;
pub use call_copy::copy;
pub use call_delete::delete;
pub use call_delete_objects::delete_objects;
pub use call_delete_objects::packed::delete_packed;
pub use call_fresh::fresh;
pub use call_get::{get, head};
pub use call_initiate::initiate;
pub use call_list::list;
pub use call_part::part;
pub use call_put::put;
pub use call_sweep::sweep;
pub use call_uploads::uploads;
