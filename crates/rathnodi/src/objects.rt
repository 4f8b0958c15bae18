// The calls on objects.
ghost use Rattle.std.specs.Prelude.{[]};
ghost use Rattle.machine.specs.Calls.{PUT, GET, HEAD, DELETE, COPY, LIST, DELETE-OBJECTS, buffers};
ghost use Rattle.machine.specs.Pairs.{pair_list};
ghost use Rattle.call_contract.specs.Answers.{places_in, left_over};
ghost use Rattle.call_contract.specs.Made.{memory, Made};
ghost use Rattle.rathnodi.specs.Exported.{numbered, numbered_with, Exported};

use crate::REPLY_LEN;
use call_types::Stamp;

// PUT: the object at path becomes the content, with this stamp and these pairs.
pub fn rathnodi_put(
    tables: &mut [u8],
    arena: &mut [u8],
    stamp: u64,
    path: &[u8],
    content: &[u8],
    pairs: &[u8],
) -> u32
    ensures { Made (PUT stamp path.now content.now (pair_list pairs.now))
        (memory tables.old arena.old)
        (numbered result)
        (memory tables.new arena.new) }
{
    let put = store::put(tables, arena, Stamp(stamp), path, content, pairs);
    c_reply::done(put)
}

// GET: the object's data to the front of the answer buffer, its pairs to that of the second one, and its metadata to the reply.
pub fn rathnodi_get(
    tables: &[u8],
    arena: &[u8],
    path: &[u8],
    answer: &mut [u8],
    pairs: &mut [u8],
    reply: &mut [u8],
) -> u32
    ensures { Exported (GET path.now answer.old pairs.old)
        (memory tables.now arena.now)
        reply.old
        result
        (buffers answer.new pairs.new)
        reply.new
        (memory tables.now arena.now) }
{
    if reply.len() != REPLY_LEN {
        return 1;
    }
    let got = store::get(tables, arena, path, answer, pairs);
    c_reply::tell(got, reply)
}

// HEAD: the object's pairs to the front of the second answer buffer, and its metadata to the reply.
pub fn rathnodi_head(
    tables: &[u8],
    arena: &[u8],
    path: &[u8],
    pairs: &mut [u8],
    reply: &mut [u8],
) -> u32
    ensures { Exported (HEAD path.now pairs.old)
        (memory tables.now arena.now)
        reply.old
        result
        (buffers [] pairs.new)
        reply.new
        (memory tables.now arena.now) }
{
    if reply.len() != REPLY_LEN {
        return 1;
    }
    let head = store::head(tables, arena, path, pairs);
    c_reply::tell(head, reply)
}

// DELETE: the object at path is taken out.
pub fn rathnodi_delete(tables: &mut [u8], arena: &mut [u8], path: &[u8]) -> u32
    ensures { Made (DELETE path.now)
        (memory tables.old arena.old)
        (numbered result)
        (memory tables.new arena.new) }
{
    let deleted = store::delete(tables, arena, path);
    c_reply::done(deleted)
}

// DELETE_OBJECTS: the object at each place of `names` is taken out, in the order of the places, each two 32-bit numbers, start and
// length; each place's result to the front of the result buffer.
pub fn rathnodi_delete_objects(
    tables: &mut [u8],
    arena: &mut [u8],
    names: &[u8],
    places: &[u8],
    results: &mut [u8],
) -> u32
    ensures { Made
        (DELETE-OBJECTS names.now (places_in places.now) (left_over places.now)
        results.old)
        (memory tables.old arena.old)
        (numbered_with result (buffers results.new []))
        (memory tables.new arena.new) }
{
    let answer = store::delete_packed(tables, arena, names, places, results);
    c_reply::done(answer)
}

// COPY: as a PUT of the source's data at the destination.
pub fn rathnodi_copy(
    tables: &mut [u8],
    arena: &mut [u8],
    stamp: u64,
    source: &[u8],
    destination: &[u8],
) -> u32
    ensures { Made (COPY stamp source.now destination.now)
        (memory tables.old arena.old)
        (numbered result)
        (memory tables.new arena.new) }
{
    let copied = store::copy(tables, arena, Stamp(stamp), source, destination);
    c_reply::done(copied)
}

// LIST: a record of each path with the prefix and the suffix to the front of the answer buffer, their counts to the reply.
pub fn rathnodi_list(
    tables: &[u8],
    arena: &[u8],
    prefix: &[u8],
    suffix: &[u8],
    answer: &mut [u8],
    reply: &mut [u8],
) -> u32
    ensures { Exported (LIST prefix.now suffix.now answer.old)
        (memory tables.now arena.now)
        reply.old
        result
        (buffers answer.new [])
        reply.new
        (memory tables.now arena.now) }
{
    if reply.len() != REPLY_LEN {
        return 1;
    }
    let listed = store::list(tables, arena, prefix, suffix, answer);
    c_reply::tell(listed, reply)
}
