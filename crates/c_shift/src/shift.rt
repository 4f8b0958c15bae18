// FRESH and the calls on an upload, in a list of their own.
ghost use Rattle.call_contract.specs.Made.{memory};
ghost use Rattle.c_shift.specs.UploadShift.{Concluded};

use crate::Weighed;

// FRESH, then the calls on an upload: what they returned, or FRESH's refusal.
pub fn fresh_shift(
    tables: &mut [u8],
    arena: &mut [u8],
    stamp: u64,
    path: &[u8],
    pairs: &[u8],
    content: &[u8],
    list: &[u8],
    opened: &mut [u8],
    sent: &mut [u8],
    answer: &mut [u8],
    counts: &mut [u8],
) -> Result<Weighed, u32>
    ensures { Concluded
        (memory tables.old arena.old)
        stamp path.now pairs.now content.now list.now result
        opened.old sent.old answer.old counts.old
        opened.new sent.new answer.new counts.new
        (memory tables.new arena.new) }
{
    let n = rathnodi::fresh::rathnodi_fresh(tables, arena);
    if n != 0 {
        return Err(n);
    }
    let weighed = crate::weigh(
        tables, arena, stamp, path, pairs, content, list, opened, sent, answer, counts,
    );
    Ok(weighed)
}
