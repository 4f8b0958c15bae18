// UPLOADS.
#![tactic(auto)]

mod measuring;
mod rows;
mod writing;

ghost use Rattle.std.specs.Prelude.{◌≡◌, []};
ghost use Rattle.machine.specs.Calls.{UPLOADS, buffers};
ghost use Rattle.machine.specs.Steps.{reply_of};
ghost use Rattle.call_contract.specs.Answers.{list_reply};
ghost use Rattle.call_contract.specs.Made as made;
ghost use Rattle.call_contract.specs.Made.{outcome, Made};

use call_types::{Counts, Refusal};
use mem_find_uploads::ScannedMemory;

// UPLOADS over scanned memory. The rows are passed once: what the records need of them is noted, four bytes for each of
// at most 16.
fn uploads_whole(memory: ScannedMemory, prefix: &[u8], answer: &mut [u8]) -> Result<Counts, Refusal>
    ensures { list_reply result answer.new ≡ reply_of (buffers answer.old [])
        (outcome (UPLOADS prefix.now answer.old)
        (made.memory memory.entry.whole.tables.now memory.entry.whole.arena.now)) }
{
    let mut notes = [0u8; 64];
    let counts = measuring::measure(memory, prefix, &mut notes);
    if answer.len() < counts.bytes as usize {
        return Err(Refusal::BufferShort);
    }
    writing::write(memory.whole.tables, &notes, counts.records, answer);
    Ok(counts)
}

// UPLOADS: the open uploads whose path begins with the prefix, to the front of the answer buffer.
pub fn uploads(
    tables: &[u8],
    arena: &[u8],
    prefix: &[u8],
    answer: &mut [u8],
) -> Result<Counts, Refusal>
    ensures { Made (UPLOADS prefix.now answer.old)
        (made.memory tables.now arena.now)
        (list_reply result answer.new)
        (made.memory tables.now arena.now) }
{
    let offsets = call_contract::offsets_of(tables, arena)?;
    let memory = ScannedMemory::of(tables, arena, offsets);
    uploads_whole(memory, prefix, answer)
}
