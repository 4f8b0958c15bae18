// A line of a recording.
ghost use Rattle.machine.specs.Calls.{buffers};
ghost use Rattle.call_contract.specs.Made.{memory};
ghost use Rattle.rathnodi.specs.Line.{ExportedLine};

// The call that the line says is made, over the answer buffers that it has, its reply to the reply; 9 where the line says none.
#[unsafe(no_mangle)]
pub extern "C" fn rathnodi_replay_line(
    tables: &mut [u8],
    arena: &mut [u8],
    line: &[u8],
    answer: &mut [u8],
    pairs: &mut [u8],
    reply: &mut [u8],
) -> u32
    ensures { ExportedLine line.now
        (buffers answer.old pairs.old)
        (memory tables.old arena.old)
        reply.old
        result
        (buffers answer.new pairs.new)
        reply.new
        (memory tables.new arena.new) }
{
    rathnodi::recordings::rathnodi_replay_line(tables, arena, line, answer, pairs, reply)
}
