// A batch record from its first weighing to its commit, over a fresh store.
ghost use Rattle.machine.specs.Calls.{buffers};
ghost use Rattle.call_contract.specs.Made.{memory};
ghost use Rattle.store_history.specs.Runs.{Run};
ghost use Rattle.store_history.specs.Batch.{batch_trace, Concluded};

use call_types::{Etag, Metadata, PartNumber, Refusal, Stamp, UploadNumber};

// What the calls answered.
#[derive(Clone, Copy)]
pub struct Batch {
    pub opened: Result<UploadNumber, Refusal>,
    pub first: Result<Etag, Refusal>,
    pub second: Result<Etag, Refusal>,
    pub early: Result<Metadata, Refusal>,
    pub committed: Result<(), Refusal>,
    pub late: Result<Metadata, Refusal>,
}

// Two weighings as parts 1 and 2 of a record with pairs, with a look at it before and after the commit, which lists part 2
// first. The second answer buffers are for the pairs.
fn weigh(
    tables: &mut [u8],
    arena: &mut [u8],
    stamp: Stamp,
    path: &[u8],
    pairs: &[u8],
    one: &[u8],
    two: &[u8],
    early: &mut [u8],
    early_pairs: &mut [u8],
    late: &mut [u8],
    late_pairs: &mut [u8],
) -> Batch
    ensures { Run
        (batch_trace stamp.0 path.now pairs.now one.now two.now
        (buffers early.old early_pairs.old)
        (buffers late.old late_pairs.old)
        result
        (buffers early.new early_pairs.new)
        (buffers late.new late_pairs.new))
        (memory tables.old arena.old)
        (memory tables.new arena.new) }
{
    let opened = store::initiate(tables, arena, stamp, path, pairs);
    let first = store::part(tables, arena, UploadNumber(1), PartNumber(1), one);
    let second = store::part(tables, arena, UploadNumber(1), PartNumber(2), two);
    let before = store::get(tables, arena, path, early, early_pairs);
    let list = [2u8, 0, 1, 0];
    let committed = store::commit(tables, arena, UploadNumber(1), &list);
    let after = store::get(tables, arena, path, late, late_pairs);
    Batch {
        opened,
        first,
        second,
        early: before,
        committed,
        late: after,
    }
}

// FRESH, then the batch: FRESH's refusal, or what the calls answered.
pub fn fresh_batch(
    tables: &mut [u8],
    arena: &mut [u8],
    stamp: Stamp,
    path: &[u8],
    pairs: &[u8],
    one: &[u8],
    two: &[u8],
    early: &mut [u8],
    early_pairs: &mut [u8],
    late: &mut [u8],
    late_pairs: &mut [u8],
) -> Result<Batch, Refusal>
    ensures { Concluded (memory tables.old arena.old)
        stamp.0 path.now pairs.now one.now two.now
        (buffers early.old early_pairs.old)
        (buffers late.old late_pairs.old)
        result
        (buffers early.new early_pairs.new)
        (buffers late.new late_pairs.new)
        (memory tables.new arena.new) }
{
    store::fresh(tables, arena)?;
    let batch = weigh(
        tables,
        arena,
        stamp,
        path,
        pairs,
        one,
        two,
        early,
        early_pairs,
        late,
        late_pairs,
    );
    Ok(batch)
}
