// The calls on uploads and their parts.
ghost use Rattle.std.specs.Prelude.{[]};
ghost use Rattle.machine.specs.Calls.{INITIATE, PART, COMMIT, ABORT, UPLOADS, SWEEP, buffers, no_buffers};
ghost use Rattle.machine.specs.Pairs.{pair_list};
ghost use Rattle.machine.specs.PartLists.{part_list};
ghost use Rattle.call_contract.specs.Made.{memory, Made};
ghost use Rattle.rathnodi.specs.Exported.{numbered, Exported};

use crate::REPLY_LEN;
use call_types::{PartNumber, Stamp, UploadNumber};

// INITIATE: an upload to path is opened with these pairs, its number to the reply.
pub fn rathnodi_initiate(
    tables: &mut [u8],
    arena: &mut [u8],
    stamp: u64,
    path: &[u8],
    pairs: &[u8],
    reply: &mut [u8],
) -> u32
    ensures { Exported (INITIATE stamp path.now (pair_list pairs.now))
        (memory tables.old arena.old)
        reply.old
        result
        no_buffers
        reply.new
        (memory tables.new arena.new) }
{
    if reply.len() != REPLY_LEN {
        return 1;
    }
    let opened = store::initiate(tables, arena, Stamp(stamp), path, pairs);
    c_reply::tell(opened, reply)
}

// PART: a part of an open upload is set, its etag to the reply.
pub fn rathnodi_part(
    tables: &mut [u8],
    arena: &mut [u8],
    upload: u32,
    part: u16,
    content: &[u8],
    reply: &mut [u8],
) -> u32
    ensures { Exported (PART upload part content.now)
        (memory tables.old arena.old)
        reply.old
        result
        no_buffers
        reply.new
        (memory tables.new arena.new) }
{
    if reply.len() != REPLY_LEN {
        return 1;
    }
    let set = store::part(
        tables,
        arena,
        UploadNumber(upload),
        PartNumber(part),
        content,
    );
    c_reply::tell(set, reply)
}

// COMMIT: the parts, joined in listed order, become the object at the upload's path.
pub fn rathnodi_commit(tables: &mut [u8], arena: &mut [u8], upload: u32, list: &[u8]) -> u32
    ensures { Made (COMMIT upload (part_list list.now))
        (memory tables.old arena.old)
        (numbered result)
        (memory tables.new arena.new) }
{
    let committed = store::commit(tables, arena, UploadNumber(upload), list);
    c_reply::done(committed)
}

// ABORT: an open upload leaves the store with its parts.
pub fn rathnodi_abort(tables: &mut [u8], arena: &mut [u8], upload: u32) -> u32
    ensures { Made (ABORT upload)
        (memory tables.old arena.old)
        (numbered result)
        (memory tables.new arena.new) }
{
    let aborted = store::abort(tables, arena, UploadNumber(upload));
    c_reply::done(aborted)
}

// SWEEP: the open uploads that started before the stamp leave the store with their parts, by ascending number, at most
// so many; to the reply how many, and whether more are due.
pub fn rathnodi_sweep(
    tables: &mut [u8],
    arena: &mut [u8],
    stamp: u64,
    most: u32,
    reply: &mut [u8],
) -> u32
    ensures { Exported (SWEEP stamp most)
        (memory tables.old arena.old)
        reply.old
        result
        no_buffers
        reply.new
        (memory tables.new arena.new) }
{
    if reply.len() != REPLY_LEN {
        return 1;
    }
    let swept = store::sweep(tables, arena, Stamp(stamp), most);
    c_reply::tell(swept, reply)
}

// UPLOADS: a record of each open upload under the prefix to the front of the answer buffer, their counts to the reply.
pub fn rathnodi_uploads(
    tables: &[u8],
    arena: &[u8],
    prefix: &[u8],
    answer: &mut [u8],
    reply: &mut [u8],
) -> u32
    ensures { Exported (UPLOADS prefix.now answer.old)
        (memory tables.now arena.now)
        reply.old
        result
        (buffers answer.new [])
        reply.new
        (memory tables.now arena.now) }
{
    if reply.len() != REPLY_LEN {
        return 1;
    }
    let listed = store::uploads(tables, arena, prefix, answer);
    c_reply::tell(listed, reply)
}
