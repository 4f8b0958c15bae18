// PART: a part of an open upload is set.
#![tactic(auto)]

ghost use Rattle.std.specs.Prelude.{◌≡◌, true, length, IfOk};
ghost use Rattle.machine.specs.Map.{is_some, by_number, lookup};
ghost use Rattle.machine.specs.Calls.{PART};
ghost use Rattle.machine.specs.Steps.{part_at};
ghost use Rattle.mem_layout.specs.Memory.{state_of};
ghost use Rattle.mem_find.specs.Places.{upload_place};
ghost use Rattle.mem_scan.specs.Scanned.{Scanned};
ghost use Rattle.mem_edit_uploads.specs.Parts.{PartPlaced};
ghost use Rattle.call_types.specs.Numbers.{result_number};
ghost use Rattle.call_contract.specs.Answers.{part_reply};
ghost use Rattle.call_contract.specs.Made as made;
ghost use Rattle.call_contract.specs.Made.{outcome, result_of, Made, MadeWhole};

use call_room::Room;
use call_types::{Etag, PartNumber, Refusal, UploadNumber};
use mem_find::Lookup;
use mem_find_uploads::ScannedMemory;
use mem_scan::Offsets;

// Where a part of an open upload goes, or table full, arena full. The bytes of the old part are free. `opened` is what the
// lookup of the upload answers.
fn part_room(
    memory: ScannedMemory,
    upload: UploadNumber,
    opened: Lookup,
    number: PartNumber,
    content: &[u8],
) -> Result<Room, Refusal>
    requires is_open { is_some (lookup by_number upload.0
        (state_of memory.whole.tables.now memory.whole.arena.now).U) ≡ true }
    requires opened { opened ≡ upload_place (state_of memory.whole.tables.now memory.whole.arena.now) upload.0 }
    ensures judged { result_number result ≡ result_of (part_at (length memory.entry.whole.arena.now)
        (state_of memory.entry.whole.tables.now memory.entry.whole.arena.now) upload.0 number.0 content.now) }
    ensures placed { IfOk result (λ room. PartPlaced memory.entry.whole.tables.now memory.entry.whole.arena.now
        upload.0 number.0 room.place room.end) }
{
    let whole = memory.whole;
    let place = mem_find_uploads::find_part_after(whole, opened, number.0);
    let end = mem_find_uploads::rows_end(memory);
    let held = end.base;
    let arena = whole.arena.len();
    if place.found {
        let h = mem_row::read_head(whole.tables, place.at);
        call_room::arena_judge(held - h.size as usize, content.len(), arena)?;
        return Ok(Room { place, end });
    }
    let parts = whole.counts().parts;
    if mem_layout::PARTS_MOST <= parts {
        return Err(Refusal::TableFull);
    }
    call_room::arena_judge(held, content.len(), arena)?;
    Ok(Room { place, end })
}

// Where PART's part goes, or why PART is refused.
fn part_judge(
    memory: ScannedMemory,
    upload: UploadNumber,
    number: PartNumber,
    content: &[u8],
) -> Result<Room, Refusal>
    ensures judged { result_number result ≡ result_of (outcome (PART upload.0 number.0 content.now)
        (made.memory memory.entry.whole.tables.now memory.entry.whole.arena.now)) }
    ensures placed { IfOk result (λ room. PartPlaced memory.entry.whole.tables.now memory.entry.whole.arena.now
        upload.0 number.0 room.place room.end) }
{
    if !names::request_part_ok(number.0) {
        return Err(Refusal::BadRequest);
    }
    let place = mem_find_uploads::find_upload(memory, upload.0);
    if !place.found {
        return Err(Refusal::BadRequest);
    }
    part_room(memory, upload, place, number, content)
}

// PART over whole memory whose rows stand at `offsets`.
pub fn part_whole(
    tables: &mut [u8],
    arena: &mut [u8],
    offsets: Offsets,
    upload: UploadNumber,
    number: PartNumber,
    content: &[u8],
) -> Result<Etag, Refusal>
    requires { Scanned tables.old arena.old offsets }
    ensures { MadeWhole (PART upload.0 number.0 content.now) (made.memory tables.old arena.old)
        (part_reply result) (made.memory tables.new arena.new) }
{
    let memory = ScannedMemory::of(tables, arena, offsets);
    let room = part_judge(memory, upload, number, content)?;
    let digest = base_md5::digest(content);
    mem_edit_uploads::parts::put_part(
        tables, arena, upload.0, number.0, room.place, room.end, digest, content,
    );
    Ok(Etag::Plain(digest))
}

// PART: a part of an open upload is set; the answer is its etag.
pub fn part(
    tables: &mut [u8],
    arena: &mut [u8],
    upload: UploadNumber,
    number: PartNumber,
    content: &[u8],
) -> Result<Etag, Refusal>
    ensures { Made (PART upload.0 number.0 content.now) (made.memory tables.old arena.old)
        (part_reply result) (made.memory tables.new arena.new) }
{
    let offsets = call_contract::offsets_of(tables, arena)?;
    part_whole(tables, arena, offsets, upload, number, content)
}
