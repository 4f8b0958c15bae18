// Lines that say PUT, DELETE and COPY.
#![tactic(auto)]

ghost use Rattle.std.specs.Prelude.{◌≤◌, length, drop};
ghost use Rattle.call_contract.specs.Answers.{done_reply};
ghost use Rattle.call_contract.specs.Made.{memory};
ghost use Rattle.recording.specs.Entry as entry;
ghost use Rattle.recording.specs.Parse.{put_rest, path_rest, copy_rest, whole};
ghost use Rattle.recording_line.specs.Replayed.{ReplayedAlone};

use call_types::{Refusal, Stamp};

// The rest of a line that begins with "(put", which ends at `at`.
pub fn put_line(tables: &mut [u8], arena: &mut [u8], line: &[u8], at: usize) -> Result<(), Refusal>
    requires { length line.now ≤ 4096 }
    ensures { ReplayedAlone (whole (put_rest (drop at line.now)))
        (memory tables.old arena.old)
        (done_reply result)
        (memory tables.new arena.new) }
{
    let mut p = [0u8; 2048];
    let mut d = [0u8; 2048];
    let mut m = [0u8; 2048];
    let read = recording_arguments::read_put(line, at, &mut p, &mut d, &mut m);
    let Some(put) = recording_read::closed(line, read) else {
        return Err(recording_line::refusal(tables, arena, Refusal::NotALine));
    };
    call_put::put(
        tables,
        arena,
        Stamp(put.stamp),
        &p[..put.path],
        &d[..put.content],
        &m[..put.pairs],
    )
}

// The rest of a line that begins with "(delete", which ends at `at`.
pub fn delete_line(
    tables: &mut [u8],
    arena: &mut [u8],
    line: &[u8],
    at: usize,
) -> Result<(), Refusal>
    requires { length line.now ≤ 4096 }
    ensures { ReplayedAlone (whole (path_rest entry.delete (drop at line.now)))
        (memory tables.old arena.old)
        (done_reply result)
        (memory tables.new arena.new) }
{
    let mut path = [0u8; 2048];
    let read = recording_read::string_field(line, at, &mut path);
    let Some(len) = recording_read::closed(line, read) else {
        return Err(recording_line::refusal(tables, arena, Refusal::NotALine));
    };
    call_delete::delete(tables, arena, &path[..len])
}

// The rest of a line that begins with "(copy", which ends at `at`.
pub fn copy_line(tables: &mut [u8], arena: &mut [u8], line: &[u8], at: usize) -> Result<(), Refusal>
    requires { length line.now ≤ 4096 }
    ensures { ReplayedAlone (whole (copy_rest (drop at line.now)))
        (memory tables.old arena.old)
        (done_reply result)
        (memory tables.new arena.new) }
{
    let mut p = [0u8; 2048];
    let mut d = [0u8; 2048];
    let read = recording_arguments::read_copy(line, at, &mut p, &mut d);
    let Some(copy) = recording_read::closed(line, read) else {
        return Err(recording_line::refusal(tables, arena, Refusal::NotALine));
    };
    let source = &p[..copy.source];
    let destination = &d[..copy.destination];
    call_copy::copy(tables, arena, Stamp(copy.stamp), source, destination)
}
