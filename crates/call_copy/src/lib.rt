// COPY: the destination becomes what PUT of the source's data and pairs would make.
#![tactic(auto)]

ghost use Rattle.std.specs.Prelude.{◌≡◌, true, length, IfOk};
ghost use Rattle.base_md5.specs.Md5.{md5};
ghost use Rattle.machine.specs.Names.{Bytes};
ghost use Rattle.machine.specs.Calls.{COPY};
ghost use Rattle.mem_layout.specs.Memory.{state_of};
ghost use Rattle.mem_scan.specs.Scanned.{Scanned};
ghost use Rattle.mem_find.specs.Places.{object_place};
ghost use Rattle.mem_find.specs.Known.{OfPath};
ghost use Rattle.mem_edit_copy.specs.Copy.{content_at, CopyPlaced};
ghost use Rattle.call_types.specs.Numbers.{result_number};
ghost use Rattle.call_contract.specs.Answers.{done_reply};
ghost use Rattle.call_copy.specs.Source.{source_outcome};
ghost use Rattle.call_contract.specs.Made.{memory as memory_of, outcome, result_of, Made, MadeWhole};

use base_md5::words::Digest;
use call_types::{Refusal, Stamp};
use mem_find::{Lookup, RowPlace, WholeMemory};
use mem_find_uploads::ScannedMemory;
use mem_scan::Offsets;

// The places of source and destination, and the end of the rows.
#[derive(Clone, Copy)]
struct CopyRoom {
    source: Lookup,
    place: Lookup,
    end: RowPlace,
}

// Where source and copy stand of a COPY whose arguments keep their rules, or why it is refused: not found, table full
// or arena full.
fn source_judge(
    memory: ScannedMemory,
    stamp: Stamp,
    source: &[u8],
    destination: &[u8],
) -> Result<CopyRoom, Refusal>
    ensures judged { result_number result ≡ result_of (source_outcome (length memory.entry.whole.arena.now)
        (state_of memory.entry.whole.tables.now memory.entry.whole.arena.now) stamp.0 source.now destination.now) }
    ensures placed { IfOk result (λ room. CopyPlaced memory.entry.whole.tables.now memory.entry.whole.arena.now
        source.now destination.now room.source room.place room.end) }
{
    let looked_up = memory.whole.find_two(source, destination);
    let from = looked_up.first;
    if !from.found {
        return Err(Refusal::NotFound);
    }
    let h = mem_row::read_head(memory.whole.tables, from.at);
    let to = looked_up.second;
    let end = mem_find_uploads::rows_end(memory);
    let room = call_room::object_room(memory.whole, to, end, h.size as usize)?;
    Ok(CopyRoom {
        source: from,
        place: room.place,
        end,
    })
}

// Where source and copy stand, or why COPY is refused.
fn copy_judge(
    memory: ScannedMemory,
    stamp: Stamp,
    source: &[u8],
    destination: &[u8],
) -> Result<CopyRoom, Refusal>
    ensures judged { result_number result ≡ result_of (outcome (COPY stamp.0 source.now destination.now)
        (memory_of memory.entry.whole.tables.now memory.entry.whole.arena.now)) }
    ensures placed { IfOk result (λ room. CopyPlaced memory.entry.whole.tables.now memory.entry.whole.arena.now
        source.now destination.now room.source room.place room.end) }
{
    if !names::stamp_ok(stamp.0)
        || !names::request_path_ok(source)
        || !names::new_path_ok(destination)
    {
        return Err(Refusal::BadRequest);
    }
    source_judge(memory, stamp, source, destination)
}

// The digest of the data of the object that a lookup found, which stand in its block after its pairs.
fn source_digest(memory: WholeMemory, source: Lookup) -> Digest
    requires place { (p : Bytes) × (source ≡ object_place (state_of memory.tables.now memory.arena.now) p) }
    requires found { source.found ≡ true }
    ensures { OfPath memory.entry.tables.now memory.entry.arena.now source (λ s p. result ≡ md5 (content_at s p)) }
{
    let at = source.at;
    let base = source.base;
    let h = mem_row::read_head(memory.tables, at);
    let from = base + mem_find::pairs_size(memory.tables, at);
    let to = base + h.size as usize;
    base_md5::digest(&memory.arena[from..to])
}

// COPY over whole memory whose rows stand at `offsets`.
pub fn copy_whole(
    tables: &mut [u8],
    arena: &mut [u8],
    offsets: Offsets,
    stamp: Stamp,
    source: &[u8],
    destination: &[u8],
) -> Result<(), Refusal>
    requires { Scanned tables.old arena.old offsets }
    ensures { MadeWhole (COPY stamp.0 source.now destination.now) (memory_of tables.old arena.old) (done_reply result)
        (memory_of tables.new arena.new) }
{
    let memory = ScannedMemory::of(tables, arena, offsets);
    let room = copy_judge(memory, stamp, source, destination)?;
    let digest = source_digest(memory.whole, room.source);
    mem_edit_copy::copy_object(
        tables,
        arena,
        stamp.0,
        digest,
        room.source,
        room.place,
        room.end,
        source,
        destination,
    );
    Ok(())
}

// COPY: the destination becomes what PUT of the source's data and pairs with this stamp would make.
pub fn copy(
    tables: &mut [u8],
    arena: &mut [u8],
    stamp: Stamp,
    source: &[u8],
    destination: &[u8],
) -> Result<(), Refusal>
    ensures { Made (COPY stamp.0 source.now destination.now) (memory_of tables.old arena.old) (done_reply result)
        (memory_of tables.new arena.new) }
{
    let offsets = call_contract::offsets_of(tables, arena)?;
    copy_whole(tables, arena, offsets, stamp, source, destination)
}
