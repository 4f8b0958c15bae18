// ABORT: an open upload leaves the store with its parts.
#![tactic(auto)]

ghost use Rattle.std.specs.Prelude.{◌≡◌, IfOk};
ghost use Rattle.machine.specs.Calls.{ABORT};
ghost use Rattle.mem_layout.specs.Memory.{state_of};
ghost use Rattle.mem_find.specs.Places.{upload_row_of};
ghost use Rattle.mem_scan.specs.Scanned.{Scanned};
ghost use Rattle.call_types.specs.Numbers.{result_number};
ghost use Rattle.call_contract.specs.Answers.{done_reply};
ghost use Rattle.call_contract.specs.Made.{memory as memory_of, outcome, result_of, Made, MadeWhole};

use call_types::{Refusal, UploadNumber};
use mem_find::RowPlace;
use mem_find_uploads::ScannedMemory;
use mem_scan::Offsets;

// Where the row of the upload stands that ABORT takes out, or why ABORT is refused.
fn abort_judge(memory: ScannedMemory, upload: UploadNumber) -> Result<RowPlace, Refusal>
    ensures judged { result_number result ≡ result_of (outcome (ABORT upload.0)
        (memory_of memory.entry.whole.tables.now memory.entry.whole.arena.now)) }
    ensures placed { IfOk result (λ here. here
        ≡ upload_row_of (state_of memory.entry.whole.tables.now memory.entry.whole.arena.now) upload.0) }
{
    let place = mem_find_uploads::find_upload(memory, upload.0);
    if place.found {
        return Ok(mem_find::place_of(place));
    }
    Err(Refusal::BadRequest)
}

// ABORT over whole memory whose rows stand at `offsets`.
pub fn abort_whole(
    tables: &mut [u8],
    arena: &mut [u8],
    offsets: Offsets,
    upload: UploadNumber,
) -> Result<(), Refusal>
    requires { Scanned tables.old arena.old offsets }
    ensures { MadeWhole (ABORT upload.0) (memory_of tables.old arena.old) (done_reply result)
        (memory_of tables.new arena.new) }
{
    let memory = ScannedMemory::of(tables, arena, offsets);
    let here = abort_judge(memory, upload)?;
    let end = mem_find_uploads::rows_end(memory);
    mem_edit_uploads::uploads::remove_upload(tables, arena, here, end);
    Ok(())
}

// ABORT: an open upload and its parts are removed.
pub fn abort(tables: &mut [u8], arena: &mut [u8], upload: UploadNumber) -> Result<(), Refusal>
    ensures { Made (ABORT upload.0) (memory_of tables.old arena.old) (done_reply result)
        (memory_of tables.new arena.new) }
{
    let offsets = call_contract::offsets_of(tables, arena)?;
    abort_whole(tables, arena, offsets, upload)
}
