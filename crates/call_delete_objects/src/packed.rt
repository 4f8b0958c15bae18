// DELETE_OBJECTS with the places as bytes.
ghost use Rattle.std.specs.Prelude.{◌≡◌, ◌<◌, ◌/◌, length, get_or};
ghost use Rattle.machine.specs.Calls.{DELETE-OBJECTS};
ghost use Rattle.call_contract.specs.Answers.{name_place, places_in, left_over, results_reply};
ghost use Rattle.call_contract.specs.Made.{memory, Made};
ghost use Rattle.call_delete_objects.specs.PlaceDone.{place_of};

use crate::listed;
use call_types::{Place, Refusal};

// The bytes of a place: its start, then its length, each 32 bits, low byte first.
const PLACE_BYTES: usize = 8;

// The place at an index of these bytes.
fn place_in(places: &[u8], i: usize) -> Place
    requires { i < length places.now / 8 }
    ensures { name_place result ≡ get_or (places_in places.now) i (place_of 0 0) }
{
    Place {
        start: base_number::get_u32(places, PLACE_BYTES * i),
        len: base_number::get_u32(places, PLACE_BYTES * i + 4),
    }
}

// The same as `delete_objects`; bytes left over after the last place are refused.
pub fn delete_packed(
    tables: &mut [u8],
    arena: &mut [u8],
    names: &[u8],
    places: &[u8],
    results: &mut [u8],
) -> Result<(), Refusal>
    ensures { Made
        (DELETE-OBJECTS names.now (places_in places.now) (left_over places.now)
        results.old)
        (memory tables.old arena.old)
        (results_reply result results.new)
        (memory tables.new arena.new) }
{
    let count = places.len() / PLACE_BYTES;
    let left = places.len() % PLACE_BYTES;
    listed::delete_listed(
        tables,
        arena,
        names,
        count,
        left,
        |i| place_in(places, i),
        results,
    )
}
