// The room for an object, the pairs of an upload or a part, which PUT, COPY, INITIATE and PART ask for.
#![tactic(auto)]

ghost use Rattle.std.specs.Prelude.{◌≡◌, cond, ◌+◌, ◌≤◌, leb, IfOk};
ghost use Rattle.machine.specs.Names.{Bytes};
ghost use Rattle.machine.specs.Calls.{arenaFull, code};
ghost use Rattle.mem_layout.specs.Memory.{state_of};
ghost use Rattle.mem_find.specs.Places.{place_after, object_place};
ghost use Rattle.mem_find.specs.Known.{rows_in, OfPath, ObjectPlaced};
ghost use Rattle.call_types.specs.Numbers.{result_number};
ghost use Rattle.call_room.specs.Judged.{PutResult};

use call_types::Refusal;
use mem_find::{Lookup, RowPlace, WholeMemory};
use mem_find_uploads::ScannedMemory;

// Arena full where n bytes beside those held pass its length.
pub fn arena_judge(held: usize, n: usize, arena: usize) -> Result<(), Refusal>
    requires { held ≤ arena }
    ensures { result_number result ≡ cond (leb (held + n) arena) 0 (code arenaFull) }
{
    if arena - held < n {
        return Err(Refusal::ArenaFull);
    }
    Ok(())
}

// Where an object, or a part, goes: the place of what was looked up, and the end of the rows.
#[derive(Clone, Copy)]
pub struct Room {
    pub place: Lookup,
    pub end: RowPlace,
}

// An object of n bytes at the path whose lookup answered `place`, as PUT and COPY put it: table full, arena full, or
// where it goes. The rows end at `end`; the bytes of the old object are free.
pub fn object_room(
    memory: WholeMemory,
    place: Lookup,
    end: RowPlace,
    n: usize,
) -> Result<Room, Refusal>
    requires place { (p : Bytes) × (place ≡ object_place (state_of memory.tables.now memory.arena.now) p) }
    requires end { end ≡ place_after (rows_in memory.tables.now memory.arena.now) }
    ensures judged { OfPath memory.entry.tables.now memory.entry.arena.now place
        (λ s p. PutResult memory.entry.tables.now memory.entry.arena.now p n (result_number result)) }
    ensures placed { OfPath memory.entry.tables.now memory.entry.arena.now place (λ s p. IfOk result
        (λ room. ObjectPlaced memory.entry.tables.now memory.entry.arena.now p room.place room.end)) }
{
    let held = end.base;
    let arena = memory.arena.len();
    if place.found {
        let h = mem_row::read_head(memory.tables, place.at);
        arena_judge(held - h.size as usize, n, arena)?;
        return Ok(Room { place, end });
    }
    let objects = memory.counts().objects;
    if mem_layout::OBJECTS_MOST <= objects {
        return Err(Refusal::TableFull);
    }
    arena_judge(held, n, arena)?;
    Ok(Room { place, end })
}

// The same of a path, in scanned memory.
pub fn object_judge(memory: ScannedMemory, path: &[u8], n: usize) -> Result<Room, Refusal>
    ensures judged { PutResult memory.entry.whole.tables.now memory.entry.whole.arena.now path.now n
        (result_number result) }
    ensures placed { IfOk result (λ room. ObjectPlaced memory.entry.whole.tables.now memory.entry.whole.arena.now
        path.now room.place room.end) }
{
    let place = memory.whole.find_object(path);
    let end = mem_find_uploads::rows_end(memory);
    object_room(memory.whole, place, end, n)
}
