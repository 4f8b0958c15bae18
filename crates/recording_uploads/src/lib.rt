// Lines that say INITIATE, PART, COMMIT and ABORT. A number over 32 bits is no upload's, and one over 16 bits no part's.
#![tactic(auto)]

ghost use Rattle.std.specs.Prelude.{◌≤◌, length, drop};
ghost use Rattle.call_contract.specs.Answers.{done_reply, initiate_reply, part_reply};
ghost use Rattle.call_contract.specs.Made.{memory};
ghost use Rattle.recording.specs.Parse.{initiate_rest, part_rest, commit_rest, abort_rest, whole};
ghost use Rattle.recording_line.specs.Replayed.{ReplayedAlone};

use call_types::{Etag, PartNumber, Refusal, Stamp, UploadNumber};

// The rest of a line that begins with "(initiate", which ends at `at`.
pub fn initiate_line(
    tables: &mut [u8],
    arena: &mut [u8],
    line: &[u8],
    at: usize,
) -> Result<UploadNumber, Refusal>
    requires { length line.now ≤ 4096 }
    ensures { ReplayedAlone (whole (initiate_rest (drop at line.now)))
        (memory tables.old arena.old)
        (initiate_reply result)
        (memory tables.new arena.new) }
{
    let mut p = [0u8; 2048];
    let mut m = [0u8; 2048];
    let read = recording_arguments::read_initiate(line, at, &mut p, &mut m);
    let Some(initiate) = recording_read::closed(line, read) else {
        return Err(recording_line::refusal(tables, arena, Refusal::NotALine));
    };
    call_initiate::initiate(
        tables,
        arena,
        Stamp(initiate.stamp),
        &p[..initiate.path],
        &m[..initiate.pairs],
    )
}

// The rest of a line that begins with "(part", which ends at `at`.
pub fn part_line(
    tables: &mut [u8],
    arena: &mut [u8],
    line: &[u8],
    at: usize,
) -> Result<Etag, Refusal>
    requires { length line.now ≤ 4096 }
    ensures { ReplayedAlone (whole (part_rest (drop at line.now)))
        (memory tables.old arena.old)
        (part_reply result)
        (memory tables.new arena.new) }
{
    let mut d = [0u8; 2048];
    let read = recording_arguments::read_part(line, at, &mut d);
    let Some(part) = recording_read::closed(line, read) else {
        return Err(recording_line::refusal(tables, arena, Refusal::NotALine));
    };
    let Ok(upload) = u32::try_from(part.upload) else {
        return Err(recording_line::refusal(tables, arena, Refusal::BadRequest));
    };
    let Ok(number) = u16::try_from(part.number) else {
        return Err(recording_line::refusal(tables, arena, Refusal::BadRequest));
    };
    call_part::part(
        tables,
        arena,
        UploadNumber(upload),
        PartNumber(number),
        &d[..part.content],
    )
}

// The rest of a line that begins with "(commit", which ends at `at`.
pub fn commit_line(
    tables: &mut [u8],
    arena: &mut [u8],
    line: &[u8],
    at: usize,
) -> Result<(), Refusal>
    requires { length line.now ≤ 4096 }
    ensures { ReplayedAlone (whole (commit_rest (drop at line.now)))
        (memory tables.old arena.old)
        (done_reply result)
        (memory tables.new arena.new) }
{
    let mut parts = [0u8; 4096];
    let read = recording_arguments::read_commit(line, at, &mut parts);
    let Some(commit) = recording_read::closed(line, read) else {
        return Err(recording_line::refusal(tables, arena, Refusal::NotALine));
    };
    let Ok(upload) = u32::try_from(commit.upload) else {
        return Err(recording_line::refusal(tables, arena, Refusal::BadRequest));
    };
    call_commit::commit(tables, arena, UploadNumber(upload), &parts[..commit.list])
}

// The rest of a line that begins with "(abort", which ends at `at`.
pub fn abort_line(
    tables: &mut [u8],
    arena: &mut [u8],
    line: &[u8],
    at: usize,
) -> Result<(), Refusal>
    ensures { ReplayedAlone (whole (abort_rest (drop at line.now)))
        (memory tables.old arena.old)
        (done_reply result)
        (memory tables.new arena.new) }
{
    let read = recording_read::number_field(line, at);
    let Some(abort) = recording_read::closed(line, read) else {
        return Err(recording_line::refusal(tables, arena, Refusal::NotALine));
    };
    let Ok(upload) = u32::try_from(abort) else {
        return Err(recording_line::refusal(tables, arena, Refusal::BadRequest));
    };
    call_abort::abort(tables, arena, UploadNumber(upload))
}
