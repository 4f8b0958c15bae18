// Readers of whole memory: where an upload or a part stands, and where the rows end.
#![tactic(auto)]

pub mod memory;
mod search;
pub mod uploads;

pub use memory::ScannedMemory;
pub use search::{first_upload, next_row};
pub use uploads::{
    find_due, find_part_after, find_part_from, find_upload, pass_parts, pass_parts_from, rows_end,
    rows_end_from,
};
