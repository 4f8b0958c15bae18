// SWEEP: the ABORT of the uploads that started before a stamp, by ascending number, at most so many.
#![tactic(auto)]

ghost use Rattle.machine.specs.Calls.{SWEEP};
ghost use Rattle.mem_scan.specs.Scanned.{Scanned};
ghost use Rattle.call_contract.specs.Answers.{sweep_reply};
ghost use Rattle.call_contract.specs.Made.{memory, Made};
ghost use Rattle.call_sweep.specs.Swept.{Swept};

use call_types::{Refusal, Stamp, Sweep};
use mem_find::WholeMemory;
use mem_find_uploads::ScannedMemory;
use mem_scan::Offsets;

// The sweep over whole memory whose rows stand at `offsets`, in one pass over their rows: where an upload is taken out
// stands then what stood after it, and the search goes on there.
fn sweep_whole(
    tables: &mut [u8],
    arena: &mut [u8],
    offsets: Offsets,
    stamp: u64,
    most: u32,
) -> Sweep
    requires { Scanned tables.old arena.old offsets }
    ensures { Swept stamp most
        (memory tables.old arena.old)
        result
        (memory tables.new arena.new) }
{
    let memory = ScannedMemory::of(tables, arena, offsets);
    let first = mem_find_uploads::first_upload(memory);
    let mut here = mem_find_uploads::find_due(memory.whole, first, stamp);
    let mut end = mem_find_uploads::rows_end(memory);
    let mut count: u32 = 0;
    // each turn moves the rows, so that no iterator can hold them
    while here.row < end.row {
        if count == most {
            return Sweep { count, more: true };
        }
        end = mem_edit_uploads::uploads::remove_upload(tables, arena, here, end);
        here = mem_find_uploads::find_due(WholeMemory::of(tables, arena), here, stamp);
        count += 1;
    }
    Sweep { count, more: false }
}

// SWEEP.
pub fn sweep(tables: &mut [u8], arena: &mut [u8], stamp: Stamp, most: u32) -> Result<Sweep, Refusal>
    ensures { Made (SWEEP stamp.0 most)
        (memory tables.old arena.old)
        (sweep_reply result)
        (memory tables.new arena.new) }
{
    let offsets = call_contract::offsets_of(tables, arena)?;
    if !names::stamp_ok(stamp.0) {
        return Err(Refusal::BadRequest);
    }
    Ok(sweep_whole(tables, arena, offsets, stamp.0, most))
}
