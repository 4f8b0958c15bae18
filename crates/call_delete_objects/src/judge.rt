// Whether DELETE_OBJECTS is refused.
ghost use Rattle.call_types.specs.Numbers.{result_number};
ghost use Rattle.call_contract.specs.Made.{memory};
ghost use Rattle.call_delete_objects.specs.Judged.{Judged};

use call_types::Refusal;

// The longest list of places.
const PLACES_MOST: usize = 1000;

// Why `count` places with `left` bytes left over and a result buffer of `results` bytes are refused, in checking order.
pub(crate) fn judge(
    tables: &[u8],
    arena: &[u8],
    count: usize,
    left: usize,
    results: usize,
) -> Result<(), Refusal>
    ensures { Judged count left results (memory tables.now arena.now) (result_number result) }
{
    call_contract::offsets_of(tables, arena)?;
    if PLACES_MOST < count {
        return Err(Refusal::TooMany);
    }
    if left != 0 {
        return Err(Refusal::BadRequest);
    }
    let short = results < count;
    if short {
        return Err(Refusal::BufferShort);
    }
    Ok(())
}
