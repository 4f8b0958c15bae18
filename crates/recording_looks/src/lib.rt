// Lines that say GET, HEAD, LIST and UPLOADS.
#![tactic(auto)]

ghost use Rattle.std.specs.Prelude.{◌≤◌, [], length, drop};
ghost use Rattle.machine.specs.Names.{Bytes};
ghost use Rattle.machine.specs.Calls.{buffers};
ghost use Rattle.call_contract.specs.Answers.{get_reply, list_reply};
ghost use Rattle.call_contract.specs.Made.{memory};
ghost use Rattle.recording.specs.Entry as entry;
ghost use Rattle.recording.specs.Parse.{path_rest, list_rest, whole};
ghost use Rattle.recording_line.specs.Replayed.{Replayed};

use call_types::{Counts, Metadata, Refusal};

// The rest of a line that begins with "(get", which ends at `at`.
pub fn get_line(
    tables: &[u8],
    arena: &[u8],
    line: &[u8],
    at: usize,
    answer: &mut [u8],
    pairs: &mut [u8],
) -> Result<Metadata, Refusal>
    requires { length line.now ≤ 4096 }
    ensures { Replayed (whole (path_rest entry.get (drop at line.now)))
        answer.old pairs.old
        (buffers answer.old pairs.old)
        (memory tables.now arena.now)
        (get_reply result (buffers answer.new pairs.new))
        (memory tables.now arena.now) }
{
    let mut path = [0u8; 2048];
    let read = recording_read::string_field(line, at, &mut path);
    let Some(len) = recording_read::closed(line, read) else {
        return Err(recording_line::refusal(tables, arena, Refusal::NotALine));
    };
    call_get::get(tables, arena, &path[..len], answer, pairs)
}

// The rest of a line that begins with "(head", which ends at `at`; b is an answer buffer that it does not have.
pub fn head_line(
    tables: &[u8],
    arena: &[u8],
    line: &[u8],
    at: usize,
    pairs: &mut [u8],
) -> Result<Metadata, Refusal>
    requires { length line.now ≤ 4096 }
    ensures { (b : Bytes) → Replayed (whole (path_rest entry.head (drop at line.now)))
        b pairs.old
        (buffers [] pairs.old)
        (memory tables.now arena.now)
        (get_reply result (buffers [] pairs.new))
        (memory tables.now arena.now) }
{
    let mut path = [0u8; 2048];
    let read = recording_read::string_field(line, at, &mut path);
    let Some(len) = recording_read::closed(line, read) else {
        return Err(recording_line::refusal(tables, arena, Refusal::NotALine));
    };
    call_get::head(tables, arena, &path[..len], pairs)
}

// The rest of a line that begins with "(uploads", which ends at `at`; p is a buffer for pairs that it does not have.
pub fn uploads_line(
    tables: &[u8],
    arena: &[u8],
    line: &[u8],
    at: usize,
    answer: &mut [u8],
) -> Result<Counts, Refusal>
    requires { length line.now ≤ 4096 }
    ensures { (p : Bytes) → Replayed (whole (path_rest entry.uploads (drop at line.now)))
        answer.old p
        (buffers answer.old [])
        (memory tables.now arena.now)
        (list_reply result answer.new)
        (memory tables.now arena.now) }
{
    let mut path = [0u8; 2048];
    let read = recording_read::string_field(line, at, &mut path);
    let Some(len) = recording_read::closed(line, read) else {
        return Err(recording_line::refusal(tables, arena, Refusal::NotALine));
    };
    call_uploads::uploads(tables, arena, &path[..len], answer)
}

// The rest of a line that begins with "(list", which ends at `at`; p is a buffer for pairs that it does not have.
pub fn list_line(
    tables: &[u8],
    arena: &[u8],
    line: &[u8],
    at: usize,
    answer: &mut [u8],
) -> Result<Counts, Refusal>
    requires { length line.now ≤ 4096 }
    ensures { (p : Bytes) → Replayed (whole (list_rest (drop at line.now)))
        answer.old p
        (buffers answer.old [])
        (memory tables.now arena.now)
        (list_reply result answer.new)
        (memory tables.now arena.now) }
{
    let mut p = [0u8; 2048];
    let mut d = [0u8; 2048];
    let read = recording_arguments::read_list(line, at, &mut p, &mut d);
    let Some(list) = recording_read::closed(line, read) else {
        return Err(recording_line::refusal(tables, arena, Refusal::NotALine));
    };
    let prefix = &p[..list.prefix];
    let suffix = &d[..list.suffix];
    call_list::list(tables, arena, prefix, suffix, answer)
}
