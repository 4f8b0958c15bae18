// INITIATE: an upload is opened, without parts, under a number that was never used.
#![tactic(auto)]

ghost use Rattle.std.specs.Prelude.{◌≡◌, true, IfOk};
ghost use Rattle.machine.specs.Pairs.{pairs_ok, pair_map, pair_list};
ghost use Rattle.machine.specs.Calls.{INITIATE};
ghost use Rattle.mem_find.specs.Places.{place_after};
ghost use Rattle.mem_scan.specs.Scanned.{Scanned};
ghost use Rattle.mem_find.specs.Known.{rows_in};
ghost use Rattle.call_types.specs.Numbers.{result_number};
ghost use Rattle.call_contract.specs.Answers.{initiate_reply};
ghost use Rattle.call_contract.specs.Made as made;
ghost use Rattle.call_contract.specs.Made.{outcome, result_of, Made, MadeWhole};
ghost use Rattle.call_initiate.specs.Initiate.{OpenResult};

use call_types::{Refusal, Stamp, UploadNumber};
use mem_find::RowPlace;
use mem_find_uploads::ScannedMemory;
use mem_scan::Offsets;

// The end of the rows, where an upload with pairs that are taken goes: or table full, arena full, numbers used up.
fn initiate_room(memory: ScannedMemory, pairs: &[u8]) -> Result<RowPlace, Refusal>
    requires { pairs_ok (pair_list pairs.now) ≡ true }
    ensures judged { OpenResult memory.entry.whole.tables.now memory.entry.whole.arena.now
        (pair_map (pair_list pairs.now)) (result_number result) }
    ensures placed { IfOk result
        (λ end. end ≡ place_after (rows_in memory.entry.whole.tables.now memory.entry.whole.arena.now)) }
{
    let whole = memory.whole;
    let open = whole.counts().uploads;
    if mem_layout::UPLOADS_MOST <= open {
        return Err(Refusal::TableFull);
    }
    let end = mem_find_uploads::rows_end(memory);
    let held = end.base;
    let n = pairs_kept::held(pairs);
    call_room::arena_judge(held, n, whole.arena.len())?;
    let header = mem_layout::headers::read_header(whole.tables);
    if 4294967295 < header.next {
        return Err(Refusal::NumbersUsedUp);
    }
    Ok(end)
}

// The end of the rows, where INITIATE's upload goes, or why it is refused.
fn initiate_judge(
    memory: ScannedMemory,
    stamp: Stamp,
    path: &[u8],
    pairs: &[u8],
) -> Result<RowPlace, Refusal>
    ensures judged { result_number result ≡ result_of (outcome (INITIATE stamp.0 path.now (pair_list pairs.now))
        (made.memory memory.entry.whole.tables.now memory.entry.whole.arena.now)) }
    ensures placed { IfOk result
        (λ end. end ≡ place_after (rows_in memory.entry.whole.tables.now memory.entry.whole.arena.now)) }
{
    if !names::stamp_ok(stamp.0) || !names::new_path_ok(path) || !pairs_kept::judge(pairs) {
        return Err(Refusal::BadRequest);
    }
    initiate_room(memory, pairs)
}

// INITIATE over whole memory whose rows stand at `offsets`.
pub fn initiate_whole(
    tables: &mut [u8],
    arena: &mut [u8],
    offsets: Offsets,
    stamp: Stamp,
    path: &[u8],
    pairs: &[u8],
) -> Result<UploadNumber, Refusal>
    requires { Scanned tables.old arena.old offsets }
    ensures { MadeWhole (INITIATE stamp.0 path.now (pair_list pairs.now))
        (made.memory tables.old arena.old) (initiate_reply result)
        (made.memory tables.new arena.new) }
{
    let memory = ScannedMemory::of(tables, arena, offsets);
    let end = initiate_judge(memory, stamp, path, pairs)?;
    let header = mem_layout::headers::read_header(tables);
    mem_edit_uploads::uploads::open_upload(tables, arena, end, stamp.0, path, pairs);
    Ok(UploadNumber(header.next as u32))
}

// INITIATE: an upload is opened with the next number, which is the answer, and these pairs.
pub fn initiate(
    tables: &mut [u8],
    arena: &mut [u8],
    stamp: Stamp,
    path: &[u8],
    pairs: &[u8],
) -> Result<UploadNumber, Refusal>
    ensures { Made (INITIATE stamp.0 path.now (pair_list pairs.now))
        (made.memory tables.old arena.old) (initiate_reply result)
        (made.memory tables.new arena.new) }
{
    let offsets = call_contract::offsets_of(tables, arena)?;
    initiate_whole(tables, arena, offsets, stamp, path, pairs)
}
