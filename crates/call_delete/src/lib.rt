// DELETE.
#![tactic(auto)]

ghost use Rattle.std.specs.Prelude.{◌≡◌, true, IfOk, IfSome};
ghost use Rattle.machine.specs.Calls.{Call};
ghost use Rattle.mem_layout.specs.Memory.{whole, state_of};
ghost use Rattle.mem_find.specs.Places.{object_place};
ghost use Rattle.mem_scan.specs.Scanned.{Scanned};
ghost use Rattle.call_types.specs.Numbers.{result_number};
ghost use Rattle.call_contract.specs.Answers.{done_reply};
ghost use Rattle.call_contract.specs.Made.{memory as memory_of, outcome, result_of, Made, MadeWhole};

use call_types::Refusal;
use mem_find::{Lookup, WholeMemory};
use mem_find_uploads::ScannedMemory;
use mem_scan::Offsets;

// Where the object stands that DELETE takes out, or why DELETE is refused.
fn delete_judge(memory: WholeMemory, path: &[u8]) -> Result<Lookup, Refusal>
    ensures judged { result_number result ≡ result_of (outcome (Call.DELETE path.now)
        (memory_of memory.entry.tables.now memory.entry.arena.now)) }
    ensures placed { IfOk result (λ place. (place.found ≡ true)
        × (place ≡ object_place (state_of memory.entry.tables.now memory.entry.arena.now) path.now)) }
{
    if !names::request_path_ok(path) {
        return Err(Refusal::BadRequest);
    }
    let place = memory.find_object(path);
    if !place.found {
        return Err(Refusal::NotFound);
    }
    Ok(place)
}

// DELETE over whole memory. The end of the rows is known where they stand at `offsets`; else it is searched for from
// the object on.
fn delete_known(
    tables: &mut [u8],
    arena: &mut [u8],
    offsets: Option<Offsets>,
    path: &[u8],
) -> Result<(), Refusal>
    requires is_whole { whole tables.old arena.old ≡ true }
    requires scanned { IfSome offsets (λ o. Scanned tables.old arena.old o) }
    ensures { MadeWhole (Call.DELETE path.now) (memory_of tables.old arena.old) (done_reply result)
        (memory_of tables.new arena.new) }
{
    let memory = WholeMemory::of(tables, arena);
    let place = delete_judge(memory, path)?;
    let end = match offsets {
        Some(o) => mem_find_uploads::rows_end(ScannedMemory::of(tables, arena, o)),
        None => mem_find_uploads::rows_end_from(memory, place),
    };
    mem_edit::objects::remove_object(tables, arena, place, end);
    Ok(())
}

// DELETE over whole memory that was not scanned.
pub fn delete_whole(tables: &mut [u8], arena: &mut [u8], path: &[u8]) -> Result<(), Refusal>
    requires { whole tables.old arena.old ≡ true }
    ensures { MadeWhole (Call.DELETE path.now) (memory_of tables.old arena.old) (done_reply result)
        (memory_of tables.new arena.new) }
{
    delete_known(tables, arena, None, path)
}

// DELETE: the object at path is taken out.
pub fn delete(tables: &mut [u8], arena: &mut [u8], path: &[u8]) -> Result<(), Refusal>
    ensures { Made (Call.DELETE path.now) (memory_of tables.old arena.old) (done_reply result)
        (memory_of tables.new arena.new) }
{
    let offsets = call_contract::offsets_of(tables, arena)?;
    delete_known(tables, arena, Some(offsets), path)
}
