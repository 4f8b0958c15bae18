// A recorded line replayed: the call that it says, with both answer buffers and the reply lent.
#![tactic(auto)]

ghost use Rattle.std.specs.Prelude.{◌≡◌, ◌≤◌, length};
ghost use Rattle.machine.specs.Calls.{buffers};
ghost use Rattle.call_contract.specs.Made.{memory};
ghost use Rattle.recording.specs.Parse.{parse};
ghost use Rattle.recording_replay.specs.Replayed.{LineDone, LineReplayed};

use call_types::Refusal;
use recording_read::Verb;

// A line by its verb.
fn verb_line(
    tables: &mut [u8],
    arena: &mut [u8],
    line: &[u8],
    answer: &mut [u8],
    pairs: &mut [u8],
    reply: &mut [u8],
) -> u32
    requires { (length line.now ≤ 4096) × (length reply.old ≡ 48) }
    ensures { LineDone (parse line.now)
        (buffers answer.old pairs.old)
        (memory tables.old arena.old)
        reply.old
        result
        (buffers answer.new pairs.new)
        reply.new
        (memory tables.new arena.new) }
{
    match Verb::of(line) {
        Some(Verb::Put) => {
            let done = recording_objects::put_line(tables, arena, line, 4);
            c_reply::done_alone(done, reply)
        }
        Some(Verb::Get) => {
            let got = recording_looks::get_line(tables, arena, line, 4, answer, pairs);
            c_reply::tell(got, reply)
        }
        Some(Verb::Head) => {
            let got = recording_looks::head_line(tables, arena, line, 5, pairs);
            c_reply::tell(got, reply)
        }
        Some(Verb::Delete) => {
            let done = recording_objects::delete_line(tables, arena, line, 7);
            c_reply::done_alone(done, reply)
        }
        Some(Verb::Copy) => {
            let done = recording_objects::copy_line(tables, arena, line, 5);
            c_reply::done_alone(done, reply)
        }
        Some(Verb::List) => {
            let listed = recording_looks::list_line(tables, arena, line, 5, answer);
            c_reply::tell(listed, reply)
        }
        Some(Verb::Initiate) => {
            let opened = recording_uploads::initiate_line(tables, arena, line, 9);
            c_reply::tell(opened, reply)
        }
        Some(Verb::Part) => {
            let stored = recording_uploads::part_line(tables, arena, line, 5);
            c_reply::tell(stored, reply)
        }
        Some(Verb::Commit) => {
            let done = recording_uploads::commit_line(tables, arena, line, 7);
            c_reply::done_alone(done, reply)
        }
        Some(Verb::Abort) => {
            let done = recording_uploads::abort_line(tables, arena, line, 6);
            c_reply::done_alone(done, reply)
        }
        Some(Verb::Uploads) => {
            let listed = recording_looks::uploads_line(tables, arena, line, 8, answer);
            c_reply::tell(listed, reply)
        }
        None => c_reply::done(Err(recording_line::refusal(tables, arena, Refusal::NotALine))),
    }
}

// A line: the call that it says, and that call's result; 9 where it says none, after 1.
pub fn replay_line(
    tables: &mut [u8],
    arena: &mut [u8],
    line: &[u8],
    answer: &mut [u8],
    pairs: &mut [u8],
    reply: &mut [u8],
) -> u32
    ensures { LineReplayed line.now
        (buffers answer.old pairs.old)
        (memory tables.old arena.old)
        reply.old
        result
        (buffers answer.new pairs.new)
        reply.new
        (memory tables.new arena.new) }
{
    if reply.len() != 48 {
        return 1;
    }
    if 4096 < line.len() {
        return c_reply::done(Err(recording_line::refusal(tables, arena, Refusal::NotALine)));
    }
    verb_line(tables, arena, line, answer, pairs, reply)
}
