// Where an upload and its parts stand, and where the rows end.
ghost use Rattle.std.specs.Prelude.{◌≡◌, ◌+◌, ◌≤◌, length};
ghost use Rattle.mem_layout.specs.Memory.{state_of};
ghost use Rattle.mem_find.specs.RowPlaces.{IsRow, IsRowPlace};
ghost use Rattle.mem_find.specs.Places.{place_of, place_after, upload_place, part_place, passed_parts};
ghost use Rattle.mem_find.specs.Known.{rows_in, OfOpenAt, OfOpenBefore};
ghost use Rattle.mem_find_uploads.specs.Search.{due_from};

use crate::memory::ScannedMemory;
use crate::search::{next_row, seek, seek_uploads, stands};
use mem_find::{Lookup, PassedParts, RowPlace, WholeMemory, lookup_at, place_of};
use mem_row::Head;

// The end of the rows.
pub fn rows_end(memory: ScannedMemory) -> RowPlace
    ensures { result ≡ place_after (rows_in memory.entry.whole.tables.now memory.entry.whole.arena.now) }
{
    let counts = memory.whole.counts();
    let end = memory.offsets.end;
    RowPlace {
        row: counts.rows,
        at: end.at,
        base: end.base,
    }
}

// The same by a search from the place that a lookup answers on.
pub fn rows_end_from(memory: WholeMemory, place: Lookup) -> RowPlace
    requires { IsRowPlace (rows_in memory.tables.now memory.arena.now) (place_of place) }
    ensures { result ≡ place_after (rows_in memory.entry.tables.now memory.entry.arena.now) }
{
    let from = place_of(place);
    seek(memory, from, &|_| false)
}

// The place of the upload with this number.
pub fn find_upload(memory: ScannedMemory, upload: u32) -> Lookup
    ensures { result ≡ upload_place (state_of memory.entry.whole.tables.now memory.entry.whole.arena.now) upload }
{
    let reached = |h: Head| h.kind == mem_layout::UPLOAD_KIND && upload <= h.number;
    let here = seek_uploads(memory, &reached);
    let found = stands(memory.whole, here, mem_layout::UPLOAD_KIND, upload);
    lookup_at(found, here)
}

// The place of a part of an open upload, `first` being the row after the upload's.
pub fn find_part_from(memory: WholeMemory, first: RowPlace, number: u16) -> Lookup
    requires { IsRowPlace (rows_in memory.tables.now memory.arena.now) first }
    ensures { OfOpenBefore memory.entry.tables.now memory.entry.arena.now first
        (λ s u x. result ≡ part_place s u x number) }
{
    let reached = |h: Head| h.kind == mem_layout::UPLOAD_KIND || number as u32 <= h.number;
    let here = seek(memory, first, &reached);
    let found = stands(memory, here, mem_layout::PART_KIND, number as u32);
    lookup_at(found, here)
}

// The place of a part of the open upload that a lookup found.
pub fn find_part_after(memory: WholeMemory, upload: Lookup, number: u16) -> Lookup
    requires { IsRow (rows_in memory.tables.now memory.arena.now) (place_of upload) }
    ensures { OfOpenAt memory.entry.tables.now memory.entry.arena.now (place_of upload)
        (λ s u x. result ≡ part_place s u x number) }
{
    let here = place_of(upload);
    let first = next_row(memory, here);
    find_part_from(memory, first, number)
}

// How many parts an open upload has, `first` being the row after the upload's, and the row after them. `from` is a
// part's row, or the row after the parts: the search goes on from there.
pub fn pass_parts_from(memory: WholeMemory, first: RowPlace, from: RowPlace) -> PassedParts
    requires { IsRowPlace (rows_in memory.tables.now memory.arena.now) from × (first.row ≤ from.row) }
    ensures { OfOpenBefore memory.entry.tables.now memory.entry.arena.now first
        (λ s u x. from.row ≤ first.row + length x.parts → result ≡ passed_parts s u x) }
{
    let is_upload = |h: Head| h.kind == mem_layout::UPLOAD_KIND;
    let next = seek(memory, from, &is_upload);
    PassedParts {
        count: next.row - first.row,
        next,
    }
}

// The same of the upload whose row stands there.
pub fn pass_parts(memory: WholeMemory, here: RowPlace) -> PassedParts
    requires { IsRow (rows_in memory.tables.now memory.arena.now) here }
    ensures { OfOpenAt memory.entry.tables.now memory.entry.arena.now here (λ s u x. result ≡ passed_parts s u x) }
{
    let first = next_row(memory, here);
    pass_parts_from(memory, first, first)
}

// From a row on, the first upload that started before a stamp, or the end of the rows.
pub fn find_due(memory: WholeMemory, from: RowPlace, stamp: u64) -> RowPlace
    requires { IsRowPlace (rows_in memory.tables.now memory.arena.now) from }
    ensures { result ≡ due_from stamp (rows_in memory.entry.tables.now memory.entry.arena.now) from.row }
{
    let is_due = |h: Head| h.kind == mem_layout::UPLOAD_KIND && h.stamp < stamp;
    seek(memory, from, &is_due)
}
