// PUT.
#![tactic(auto)]

ghost use Rattle.std.specs.Prelude.{◌≡◌, IfOk};
ghost use Rattle.machine.specs.Calls.{Call};
ghost use Rattle.machine.specs.Pairs.{pair_list};
ghost use Rattle.mem_scan.specs.Scanned.{Scanned};
ghost use Rattle.mem_find.specs.Known.{ObjectPlaced};
ghost use Rattle.call_types.specs.Numbers.{result_number};
ghost use Rattle.call_contract.specs.Answers.{done_reply};
ghost use Rattle.call_contract.specs.Made.{memory as memory_of, outcome, result_of, Made, MadeWhole};

use call_room::Room;
use call_types::{Refusal, Stamp};
use mem_find_uploads::ScannedMemory;
use mem_scan::Offsets;

// Where PUT's object goes, or why PUT is refused.
fn put_judge(
    memory: ScannedMemory,
    stamp: Stamp,
    path: &[u8],
    content: &[u8],
    pairs: &[u8],
) -> Result<Room, Refusal>
    ensures judged { result_number result
        ≡ result_of (outcome (Call.PUT stamp.0 path.now content.now (pair_list pairs.now))
        (memory_of memory.entry.whole.tables.now memory.entry.whole.arena.now)) }
    ensures placed { IfOk result (λ room. ObjectPlaced memory.entry.whole.tables.now memory.entry.whole.arena.now
        path.now room.place room.end) }
{
    if !names::stamp_ok(stamp.0) || !names::new_path_ok(path) || !pairs_kept::judge(pairs) {
        return Err(Refusal::BadRequest);
    }
    let n = pairs_kept::held(pairs) + content.len();
    call_room::object_judge(memory, path, n)
}

// PUT over whole memory whose rows stand at `offsets`.
pub fn put_whole(
    tables: &mut [u8],
    arena: &mut [u8],
    offsets: Offsets,
    stamp: Stamp,
    path: &[u8],
    content: &[u8],
    pairs: &[u8],
) -> Result<(), Refusal>
    requires { Scanned tables.old arena.old offsets }
    ensures { MadeWhole
        (Call.PUT stamp.0 path.now content.now (pair_list pairs.now))
        (memory_of tables.old arena.old)
        (done_reply result)
        (memory_of tables.new arena.new) }
{
    let memory = ScannedMemory::of(tables, arena, offsets);
    let room = put_judge(memory, stamp, path, content, pairs)?;
    let digest = base_md5::digest(content);
    mem_edit::objects::put_object(
        tables, arena, room.place, room.end, stamp.0, digest, path, content, pairs,
    );
    Ok(())
}

// PUT: the object at path becomes the content, with this stamp and these pairs.
pub fn put(
    tables: &mut [u8],
    arena: &mut [u8],
    stamp: Stamp,
    path: &[u8],
    content: &[u8],
    pairs: &[u8],
) -> Result<(), Refusal>
    ensures { Made
        (Call.PUT stamp.0 path.now content.now (pair_list pairs.now))
        (memory_of tables.old arena.old)
        (done_reply result)
        (memory_of tables.new arena.new) }
{
    let offsets = call_contract::offsets_of(tables, arena)?;
    put_whole(tables, arena, offsets, stamp, path, content, pairs)
}
