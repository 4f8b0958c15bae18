// The rows of uploads, in order.
ghost use Rattle.std.specs.Prelude.{◌≤◌, length};
ghost use Rattle.mem_find.specs.Known.{OfOpen};
ghost use Rattle.call_uploads.specs.Rows.{number_at, IsUpload, RowRead};

use mem_find::{RowPlace, WholeMemory};

// An open upload: its path stands in the tables from `from` to `to`, and `next` is the row after its parts.
#[derive(Clone, Copy)]
pub struct OpenUpload {
    pub from: usize,
    pub to: usize,
    pub parts: u16,
    pub next: RowPlace,
}

// The upload whose row stands there.
pub(crate) fn read_upload(memory: WholeMemory, here: RowPlace) -> OpenUpload
    requires { IsUpload memory.tables.now memory.arena.now here }
    ensures inside { (result.from ≤ result.to) × (result.to ≤ length memory.entry.tables.now) }
    ensures read { OfOpen memory.entry.tables.now memory.entry.arena.now (number_at memory.entry.tables.now here)
        (λ s x. RowRead memory.entry.tables.now s here x result) }
{
    let h = memory.row_head(here);
    let parts = mem_find_uploads::pass_parts(memory, here);
    let next = parts.next;
    let from = here.at + mem_row::HEAD_LENGTH;
    OpenUpload {
        from,
        to: from + h.pathlen as usize,
        parts: parts.count as u16,
        next,
    }
}
