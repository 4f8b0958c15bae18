// LIST.
#![tactic(auto)]

mod measuring;
mod paths;
mod record;
mod writing;

ghost use Rattle.std.specs.Prelude.{◌≡◌, []};
ghost use Rattle.machine.specs.Calls.{LIST, buffers};
ghost use Rattle.machine.specs.Steps.{reply_of};
ghost use Rattle.call_contract.specs.Answers.{list_reply};
ghost use Rattle.call_contract.specs.Made as made;
ghost use Rattle.call_contract.specs.Made.{outcome, Made};

use call_types::{Counts, Refusal};
use mem_find::WholeMemory;

// LIST over whole memory. Where the rows stand that have a record is handed from the pass that measures to that which
// writes: two bytes for each of at most 256.
fn list_whole(
    memory: WholeMemory,
    prefix: &[u8],
    suffix: &[u8],
    answer: &mut [u8],
) -> Result<Counts, Refusal>
    ensures { list_reply result answer.new ≡ reply_of (buffers answer.old [])
        (outcome (LIST prefix.now suffix.now answer.old)
        (made.memory memory.entry.tables.now memory.entry.arena.now)) }
{
    let mut places = [0u8; 512];
    let counts = measuring::measure_rows(memory, prefix, suffix, &mut places);
    if answer.len() < counts.bytes as usize {
        return Err(Refusal::BufferShort);
    }
    writing::write_rows(memory, prefix, suffix, &places, counts.records, answer);
    Ok(counts)
}

// LIST: the records of the paths that begin with the prefix and whose rest ends with the suffix.
pub fn list(
    tables: &[u8],
    arena: &[u8],
    prefix: &[u8],
    suffix: &[u8],
    answer: &mut [u8],
) -> Result<Counts, Refusal>
    ensures { Made (LIST prefix.now suffix.now answer.old)
        (made.memory tables.now arena.now)
        (list_reply result answer.new)
        (made.memory tables.now arena.now) }
{
    call_contract::offsets_of(tables, arena)?;
    list_whole(WholeMemory::of(tables, arena), prefix, suffix, answer)
}
