// DELETE_OBJECTS: the DELETE of each name place of a list, in order.
#![tactic(auto)]

mod judge;
mod listed;
pub mod packed;
mod place;

ghost use Rattle.std.specs.Prelude.{◌≡◌, ◌<◌, length};
ghost use Rattle.machine.specs.Calls.{DELETE-OBJECTS};
ghost use Rattle.call_contract.specs.Answers.{name_places, results_reply};
ghost use Rattle.call_contract.specs.Made.{memory, Made};

use call_types::{Place, Refusal};

// DELETE_OBJECTS: the object at each place of `names` is taken out, in order; each place's result to the front of the result buffer.
pub fn delete_objects(
    tables: &mut [u8],
    arena: &mut [u8],
    names: &[u8],
    places: &[Place],
    results: &mut [u8],
) -> Result<(), Refusal>
    ensures { Made (DELETE-OBJECTS names.now (name_places places.now) 0 results.old)
        (memory tables.old arena.old)
        (results_reply result results.new)
        (memory tables.new arena.new) }
{
    listed::delete_listed(
        tables,
        arena,
        names,
        places.len(),
        0,
        |i| places[i],
        results,
    )
}
