// COMMIT: an open upload's parts become an object, in listed order.
#![tactic(auto)]

ghost use Rattle.std.specs.Prelude.{◌≡◌, true, false, cond, ◌+◌, ◌*◌, ◌≤◌, length, IfOk, IfSome, IfNone};
ghost use Rattle.machine.specs.State.{Object, with_object, without_upload, counted};
ghost use Rattle.machine.specs.Calls.{COMMIT, tableFull, code};
ghost use Rattle.machine.specs.ListFits.{member, list_fits};
ghost use Rattle.mem_find.specs.Places.{object_place, passed_parts};
ghost use Rattle.mem_scan.specs.Scanned.{Scanned};
ghost use Rattle.mem_find.specs.RowPlaces.{IsRowPlace};
ghost use Rattle.mem_find.specs.Known.{rows_in, WholeOpenAt, OfOpenAt, OfOpenBefore};
ghost use Rattle.machine.specs.PartLists.{part_list};
ghost use Rattle.call_types.specs.Numbers.{result_number};
ghost use Rattle.call_contract.specs.Answers.{done_reply};
ghost use Rattle.call_contract.specs.Made as made;
ghost use Rattle.call_contract.specs.Made.{outcome, result_of, Made, MadeWhole};
ghost use Rattle.mem_join_order.specs.Region.{InOrder};
ghost use Rattle.mem_join.specs.Joined.{JoinPlaced};
ghost use Rattle.call_commit.specs.Numbers.{first_numbers, number_fits, is_part, after_listed};

use call_types::{Refusal, UploadNumber};
use mem_find::{Lookup, PassedParts, RowPlace, WholeMemory};
use mem_find_uploads::ScannedMemory;
use mem_join::Bounds;
use mem_row::Head;
use mem_scan::Offsets;

// Whether a number is one of the list's first i.
fn is_listed_before(list: &[u8], i: usize, number: u16) -> bool
    requires { 2 * i ≤ length list.now }
    ensures { result ≡ member number (first_numbers list.now i) }
{
    let mut listed = false;
    for k in 0..i {
        if base_number::get_u16(list, 2 * k) == number {
            listed = true;
        }
    }
    listed
}

// Whether the list's number at i is a part's of an open upload, `first` being the row after the upload's, and none of
// those before it.
fn number_fits(memory: WholeMemory, first: RowPlace, list: &[u8], i: usize) -> bool
    requires { IsRowPlace (rows_in memory.tables.now memory.arena.now) first × (2 * i + 2 ≤ length list.now) }
    ensures { OfOpenBefore memory.entry.tables.now memory.entry.arena.now first
        (λ s u x. result ≡ number_fits x.parts list.now i) }
{
    let number = base_number::get_u16(list, 2 * i);
    let place = mem_find_uploads::find_part_from(memory, first, number);
    place.found && !is_listed_before(list, i, number)
}

// Whether a row is the part with this number.
fn is_part(h: Head, number: u16) -> bool
    ensures { result ≡ is_part number h }
{
    h.kind == mem_layout::PART_KIND && number as u32 == h.number
}

// Passes the parts from `first` on that have the list's numbers, in its order, and stops at any other row, or at the
// list's end. A part has no path and no pairs, so where the next row begins does not depend on what is read.
fn pass_listed(memory: WholeMemory, first: RowPlace, list: &[u8]) -> RowPlace
    requires { IsRowPlace (rows_in memory.tables.now memory.arena.now) first }
    ensures { result ≡ after_listed list.now (rows_in memory.entry.tables.now memory.entry.arena.now) first.row }
{
    let rows = memory.counts().rows;
    let numbers = list.len() / 2;
    let mut here = first;
    for i in 0..numbers {
        if rows <= here.row {
            return here;
        }
        let h = memory.row_head(here);
        if !is_part(h, base_number::get_u16(list, 2 * i)) {
            return here;
        }
        here = RowPlace {
            row: here.row + 1,
            at: here.at + mem_row::HEAD_LENGTH,
            base: here.base + h.size as usize,
        };
    }
    here
}

// What an accepted list has: whether the parts' numbers stand in their order, and the pass over the parts.
#[derive(Clone, Copy)]
struct ListJudged {
    ascends: bool,
    parts: PassedParts,
}

// The judgement of a list that names each part of an open upload one time, `here` being the upload's row. The parts are
// passed one time where the list has their numbers in ascending order: then the first walk comes as far as the second.
// Else each number is looked for.
fn judge_list(memory: WholeMemory, here: RowPlace, list: &[u8]) -> Option<ListJudged>
    requires { WholeOpenAt memory.tables.now memory.arena.now here }
    ensures fits { OfOpenAt memory.entry.tables.now memory.entry.arena.now here
        (λ s u x. IfSome result (λ j. list_fits (part_list list.now) x.parts ≡ true)) }
    ensures unfit { OfOpenAt memory.entry.tables.now memory.entry.arena.now here
        (λ s u x. IfNone result (list_fits (part_list list.now) x.parts ≡ false)) }
    ensures ordered { OfOpenAt memory.entry.tables.now memory.entry.arena.now here
        (λ s u x. IfSome result (λ j. InOrder j.ascends list.now x.parts)) }
    ensures passed { OfOpenAt memory.entry.tables.now memory.entry.arena.now here
        (λ s u x. IfSome result (λ j. j.parts ≡ passed_parts s u x)) }
{
    let first = mem_find_uploads::next_row(memory, here);
    let reached = pass_listed(memory, first, list);
    let parts = mem_find_uploads::pass_parts_from(memory, first, reached);
    let count = parts.count;
    if list.len() != 2 * count {
        return None;
    }
    let next = parts.next;
    if reached.row == next.row {
        return Some(ListJudged {
            ascends: true,
            parts,
        });
    }
    for i in 0..count {
        if !number_fits(memory, first, list, i) {
            return None;
        }
    }
    Some(ListJudged {
        ascends: false,
        parts,
    })
}

// What the lookup of an open upload's path answers, `here` being the upload's row, or table full where the object would be
// the 257th. The upload's data are held already, so the arena has room for the object.
fn commit_room(memory: WholeMemory, here: RowPlace) -> Result<Lookup, Refusal>
    requires { WholeOpenAt memory.tables.now memory.arena.now here }
    ensures judged { OfOpenAt memory.entry.tables.now memory.entry.arena.now here (λ s u x.
        (y : Object) → result_number result ≡ cond (counted (without_upload (with_object s x.path y) u)) 0 (code tableFull)) }
    ensures placed { OfOpenAt memory.entry.tables.now memory.entry.arena.now here
        (λ s u x. IfOk result (λ place. place ≡ object_place s x.path)) }
{
    let h = memory.row_head(here);
    let from = here.at + mem_row::HEAD_LENGTH;
    let to = from + h.pathlen as usize;
    let place = memory.find_object(&memory.tables[from..to]);
    if place.found {
        return Ok(place);
    }
    let objects = memory.counts().objects;
    if mem_layout::OBJECTS_MOST <= objects {
        return Err(Refusal::TableFull);
    }
    Ok(place)
}

// What the change takes: the bounds of the upload, the place of its path, and whether the list has the parts' numbers in
// their order.
#[derive(Clone, Copy)]
struct CommitRoom {
    bounds: Bounds,
    place: Lookup,
    ascends: bool,
}

// What COMMIT's change takes, or why COMMIT is refused. Upload and path are looked up one time each.
fn commit_judge(
    memory: ScannedMemory,
    upload: UploadNumber,
    list: &[u8],
) -> Result<CommitRoom, Refusal>
    ensures judged { result_number result ≡ result_of (outcome (COMMIT upload.0 (part_list list.now))
        (made.memory memory.entry.whole.tables.now memory.entry.whole.arena.now)) }
    ensures placed { IfOk result (λ room. JoinPlaced memory.entry.whole.tables.now memory.entry.whole.arena.now upload.0
        room.bounds room.place list.now room.ascends) }
{
    let whole = memory.whole;
    let opened = mem_find_uploads::find_upload(memory, upload.0);
    if !opened.found {
        return Err(Refusal::BadRequest);
    }
    let here = mem_find::place_of(opened);
    let Some(judged) = judge_list(whole, here, list) else {
        return Err(Refusal::BadRequest);
    };
    let target = commit_room(whole, here)?;
    let end = mem_find_uploads::rows_end(memory);
    let bounds = mem_join::upload_bounds(whole.tables, whole.arena, here, judged.parts, end);
    Ok(CommitRoom {
        bounds,
        place: target,
        ascends: judged.ascends,
    })
}

// COMMIT over whole memory whose rows stand at `offsets`.
pub fn commit_whole(
    tables: &mut [u8],
    arena: &mut [u8],
    offsets: Offsets,
    upload: UploadNumber,
    list: &[u8],
) -> Result<(), Refusal>
    requires { Scanned tables.old arena.old offsets }
    ensures { MadeWhole (COMMIT upload.0 (part_list list.now)) (made.memory tables.old arena.old)
        (done_reply result) (made.memory tables.new arena.new) }
{
    let memory = ScannedMemory::of(tables, arena, offsets);
    let room = commit_judge(memory, upload, list)?;
    mem_join::join(
        tables,
        arena,
        upload.0,
        room.bounds,
        room.place,
        list,
        room.ascends,
    );
    Ok(())
}

// COMMIT: the parts, joined in listed order, become the object at the upload's path, and the upload is closed.
pub fn commit(
    tables: &mut [u8],
    arena: &mut [u8],
    upload: UploadNumber,
    list: &[u8],
) -> Result<(), Refusal>
    ensures { Made (COMMIT upload.0 (part_list list.now)) (made.memory tables.old arena.old)
        (done_reply result) (made.memory tables.new arena.new) }
{
    let offsets = call_contract::offsets_of(tables, arena)?;
    commit_whole(tables, arena, offsets, upload, list)
}
