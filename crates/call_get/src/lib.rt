// GET and HEAD.
#![tactic(auto)]

ghost use Rattle.std.specs.Prelude.{◌≡◌, true, [], ◌+◌, ◌≤◌, length, drop};
ghost use Rattle.machine.specs.Pairs.{encode_pairs};
ghost use Rattle.machine.specs.Etags.{absent};
ghost use Rattle.machine.specs.Calls.{metadata, buffers, GET, HEAD};
ghost use Rattle.machine.specs.Steps.{over, reply_of};
ghost use Rattle.pairs_stored.specs.Stored.{sum_of};
ghost use Rattle.mem_row.specs.Row.{head_at, digest_at, lengths_at, span_at, head_length};
ghost use Rattle.mem_layout.specs.Memory.{state_of, row_etag};
ghost use Rattle.call_contract.specs.Answers.{etag_of, metadata_of, get_reply};
ghost use Rattle.call_contract.specs.Made as made;
ghost use Rattle.call_contract.specs.Made.{outcome, Made};
ghost use Rattle.call_get.specs.Named.{named_in, metadata_at, stored_at, Holds, get_step, head_step};

use call_types::{Etag, Metadata, Refusal, Stamp};
use mem_find::WholeMemory;

// What the path of a GET or HEAD names: the root, or an object, by the place of its row in the tables and of its block in
// the arena.
#[derive(Clone, Copy)]
enum Named {
    Root,
    Object { at: usize, base: usize },
}

// What the path names, or why it is refused.
fn look_up(memory: WholeMemory, path: &[u8]) -> Result<Named, Refusal>
    ensures { result ≡ named_in (state_of memory.entry.tables.now memory.entry.arena.now) path.now }
{
    if path.len() == 0 {
        return Ok(Named::Root);
    }
    if !names::request_path_ok(path) {
        return Err(Refusal::BadRequest);
    }
    let place = memory.find_object(path);
    if !place.found {
        return Err(Refusal::NotFound);
    }
    Ok(Named::Object {
        at: place.at,
        base: place.base,
    })
}

// The root's metadata.
fn root() -> Metadata
    ensures { metadata_of result ≡ metadata 0 0 absent 0 0 }
{
    Metadata {
        length: 0,
        created: Stamp(0),
        etag: Etag::Absent,
        pairs: 0,
        bytes: 0,
    }
}

// The etag of the object whose row stands at `at`.
fn etag(tables: &[u8], at: usize, kind: u8, count: u16) -> Etag
    requires { at + head_length ≤ length tables.now }
    ensures { etag_of result ≡ row_etag kind (digest_at (drop at tables.now)) count }
{
    let digest = base_md5::get(tables, at + mem_row::NUMBERS_LENGTH);
    if kind == mem_layout::PLAIN_KIND {
        Etag::Plain(digest)
    } else {
        Etag::Joined(digest, count)
    }
}

// The metadata of the object whose row stands at `at`.
fn metadata(tables: &[u8], at: usize) -> Metadata
    requires { (at + span_at (drop at tables.now) ≤ length tables.now)
        × (sum_of (lengths_at (drop at tables.now)) ≤ (head_at (drop at tables.now)).size) }
    ensures { metadata_of result ≡ metadata_at (drop at tables.now) }
{
    let h = mem_row::read_head(tables, at);
    let etag = etag(tables, at, h.kind, h.count);
    let held = mem_find::pairs_size(tables, at);
    let size = h.size as usize;
    let length = size - held;
    let pairs = h.pairs as u16;
    Metadata {
        length: length as u32,
        created: Stamp(h.stamp),
        etag,
        pairs,
        bytes: 2 * pairs + held as u16,
    }
}

// The pairs of the object whose row stands at `at`, with its block at `base`, to the front of the second answer buffer.
fn write_pairs(memory: WholeMemory, at: usize, base: usize, pairs: &mut [u8])
    requires { Holds memory.tables.now memory.arena.now at base
        × (length (encode_pairs (stored_at memory.tables.now memory.arena.now at base).pairs) ≤ length pairs.old) }
    ensures { pairs.new
        ≡ over (encode_pairs (stored_at memory.entry.tables.now memory.entry.arena.now at base).pairs) pairs.old }
{
    let lengths = mem_find::row_pairs::lengths(memory.tables, at);
    let end = base + pairs_stored::sum_of(lengths);
    pairs_write::encode(lengths, &memory.arena[base..end], pairs);
}

// GET of the object whose row stands at `at`, with its block at `base`.
fn get_object(
    memory: WholeMemory,
    at: usize,
    base: usize,
    answer: &mut [u8],
    pairs: &mut [u8],
) -> Result<Metadata, Refusal>
    requires { Holds memory.tables.now memory.arena.now at base }
    ensures { get_reply result (buffers answer.new pairs.new)
        ≡ reply_of (buffers answer.old pairs.old)
        (get_step (state_of memory.entry.tables.now memory.entry.arena.now) answer.old pairs.old
        (stored_at memory.entry.tables.now memory.entry.arena.now at base)) }
{
    let m = metadata(memory.tables, at);
    let n = m.length as usize;
    let bytes = m.bytes as usize;
    if answer.len() < n || pairs.len() < bytes {
        return Err(Refusal::BufferShort);
    }
    let from = base + mem_find::pairs_size(memory.tables, at);
    base_buffer::copy_at(answer, 0, &memory.arena[from..from + n]);
    write_pairs(memory, at, base, pairs);
    Ok(m)
}

// HEAD of the object whose row stands at `at`, with its block at `base`.
fn head_object(
    memory: WholeMemory,
    at: usize,
    base: usize,
    pairs: &mut [u8],
) -> Result<Metadata, Refusal>
    requires { Holds memory.tables.now memory.arena.now at base }
    ensures { get_reply result (buffers [] pairs.new)
        ≡ reply_of (buffers [] pairs.old)
        (head_step (state_of memory.entry.tables.now memory.entry.arena.now) pairs.old
        (stored_at memory.entry.tables.now memory.entry.arena.now at base)) }
{
    let m = metadata(memory.tables, at);
    if pairs.len() < m.bytes as usize {
        return Err(Refusal::BufferShort);
    }
    write_pairs(memory, at, base, pairs);
    Ok(m)
}

// GET over whole memory.
fn get_whole(
    memory: WholeMemory,
    path: &[u8],
    answer: &mut [u8],
    pairs: &mut [u8],
) -> Result<Metadata, Refusal>
    ensures { get_reply result (buffers answer.new pairs.new)
        ≡ reply_of (buffers answer.old pairs.old)
        (outcome (GET path.now answer.old pairs.old)
        (made.memory memory.entry.tables.now memory.entry.arena.now)) }
{
    match look_up(memory, path)? {
        Named::Root => Ok(root()),
        Named::Object { at, base } => get_object(memory, at, base, answer, pairs),
    }
}

// HEAD over whole memory.
fn head_whole(memory: WholeMemory, path: &[u8], pairs: &mut [u8]) -> Result<Metadata, Refusal>
    ensures { get_reply result (buffers [] pairs.new)
        ≡ reply_of (buffers [] pairs.old)
        (outcome (HEAD path.now pairs.old)
        (made.memory memory.entry.tables.now memory.entry.arena.now)) }
{
    match look_up(memory, path)? {
        Named::Root => Ok(root()),
        Named::Object { at, base } => head_object(memory, at, base, pairs),
    }
}

// GET: the object's data to the front of the answer buffer, its pairs to that of the second, and its metadata.
pub fn get(
    tables: &[u8],
    arena: &[u8],
    path: &[u8],
    answer: &mut [u8],
    pairs: &mut [u8],
) -> Result<Metadata, Refusal>
    ensures { Made (GET path.now answer.old pairs.old)
        (made.memory tables.now arena.now)
        (get_reply result (buffers answer.new pairs.new))
        (made.memory tables.now arena.now) }
{
    call_contract::offsets_of(tables, arena)?;
    get_whole(WholeMemory::of(tables, arena), path, answer, pairs)
}

// HEAD: GET's pairs and metadata, no data.
pub fn head(tables: &[u8], arena: &[u8], path: &[u8], pairs: &mut [u8]) -> Result<Metadata, Refusal>
    ensures { Made (HEAD path.now pairs.old)
        (made.memory tables.now arena.now)
        (get_reply result (buffers [] pairs.new))
        (made.memory tables.now arena.now) }
{
    call_contract::offsets_of(tables, arena)?;
    head_whole(WholeMemory::of(tables, arena), path, pairs)
}
