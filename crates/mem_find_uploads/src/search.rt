// A search along the rows.
ghost use Rattle.std.specs.Prelude.{◌≡◌, Bool, ◌+◌, ◌≤◌, length, drop};
ghost use Rattle.mem_row.specs.declared.Head.{Head};
ghost use Rattle.mem_layout.specs.Memory.{state_of, object_rows};
ghost use Rattle.mem_find.specs.RowPlaces.{IsRow, IsRowPlace, row_place_at};
ghost use Rattle.mem_find_uploads.specs.Search.{Goal, stops_at, sought, leads};
ghost use Rattle.mem_find.specs.Places.{first_upload_row};
ghost use Rattle.mem_find.specs.Known.{rows_in};

use crate::memory::ScannedMemory;
use mem_find::{RowPlace, WholeMemory};
use mem_row::Head;

// The row after a row.
pub fn next_row(memory: WholeMemory, from: RowPlace) -> RowPlace
    requires { IsRow (rows_in memory.tables.now memory.arena.now) from }
    ensures { result ≡ row_place_at (rows_in memory.entry.tables.now memory.entry.arena.now) (from.row + 1) }
{
    let h = memory.row_head(from);
    RowPlace {
        row: from.row + 1,
        at: from.at + mem_row::span(h),
        base: from.base + h.size as usize,
    }
}

// Passes rows that have no pairs, as most have none, up to one at which the search stops. The next row begins where the
// path ends, which is known sooner than where pairs do.
fn pass_rows<F: Fn(Head) -> bool>(memory: WholeMemory, from: RowPlace, stops: &F) -> RowPlace
    requires place { IsRowPlace (rows_in memory.tables.now memory.arena.now) from }
    requires stops { F.IsAlwaysCallable stops.now }
    ensures on { from.row ≤ result.row }
    ensures place { IsRowPlace (rows_in memory.entry.tables.now memory.entry.arena.now) result }
    ensures same { (goal : Goal) → ((h : Head) (r : Bool) → F.post stops.now h r → r ≡ stops_at goal h)
        → sought goal (rows_in memory.entry.tables.now memory.entry.arena.now) from.row ≡ sought goal (rows_in memory.entry.tables.now memory.entry.arena.now) result.row }
{
    let rows = memory.counts().rows;
    let mut here = from;
    while here.row < rows {
        let h = memory.row_head(here);
        if h.pairs != 0 || stops(h) {
            return here;
        }
        here = RowPlace {
            row: here.row + 1,
            at: here.at + (mem_row::HEAD_LENGTH + h.pathlen as usize),
            base: here.base + h.size as usize,
        };
    }
    here
}

// From a row on, the first row at which the search stops, or the end of the rows.
pub(crate) fn seek<F: Fn(Head) -> bool>(memory: WholeMemory, from: RowPlace, stops: &F) -> RowPlace
    requires place { IsRowPlace (rows_in memory.tables.now memory.arena.now) from }
    requires stops { F.IsAlwaysCallable stops.now }
    ensures { (goal : Goal) → ((h : Head) (r : Bool) → F.post stops.now h r → r ≡ stops_at goal h)
        → result ≡ sought goal (rows_in memory.entry.tables.now memory.entry.arena.now) from.row }
{
    let rows = memory.counts().rows;
    let mut here = pass_rows(memory, from, stops);
    while here.row < rows {
        if stops(memory.row_head(here)) {
            return here;
        }
        let next = next_row(memory, here);
        here = pass_rows(memory, next, stops);
    }
    here
}

// The place of the first upload's row, or where it would stand.
pub fn first_upload(memory: ScannedMemory) -> RowPlace
    ensures { result ≡ first_upload_row (state_of memory.entry.whole.tables.now memory.entry.whole.arena.now) }
{
    let counts = memory.whole.counts();
    let uploads = memory.offsets.uploads;
    RowPlace {
        row: counts.objects,
        at: uploads.at,
        base: uploads.base,
    }
}

// The search from there on.
pub(crate) fn seek_uploads<F: Fn(Head) -> bool>(memory: ScannedMemory, stops: &F) -> RowPlace
    requires { F.IsAlwaysCallable stops.now }
    ensures { (goal : Goal) → ((h : Head) (r : Bool) → F.post stops.now h r → r ≡ stops_at goal h)
        → result ≡ sought goal (rows_in memory.entry.whole.tables.now memory.entry.whole.arena.now)
        (length (object_rows (state_of memory.entry.whole.tables.now memory.entry.whole.arena.now).O)) }
{
    let first = first_upload(memory);
    seek(memory.whole, first, stops)
}

// Whether a row of this kind with this number stands there.
pub(crate) fn stands(memory: WholeMemory, here: RowPlace, kind: u8, number: u32) -> bool
    requires { IsRowPlace (rows_in memory.tables.now memory.arena.now) here }
    ensures { result ≡ leads kind number (drop here.row (rows_in memory.entry.tables.now memory.entry.arena.now)) }
{
    if memory.counts().rows <= here.row {
        return false;
    }
    let h = memory.row_head(here);
    h.kind == kind && h.number == number
}
