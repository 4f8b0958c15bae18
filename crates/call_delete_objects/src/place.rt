// The DELETE of one name place.
ghost use Rattle.std.specs.Prelude.{◌≡◌, true, ◌<◌, length};
ghost use Rattle.mem_layout.specs.Memory.{whole};
ghost use Rattle.call_contract.specs.Answers.{name_place};
ghost use Rattle.call_contract.specs.Made.{memory};
ghost use Rattle.call_delete_objects.specs.PlaceDone.{PlaceDone, PlaceDoneAt};

use call_types::{Place, Refusal};

// DELETE of the path that stands at a place of `names`, over whole memory; its result number.
fn delete_place(tables: &mut [u8], arena: &mut [u8], names: &[u8], place: Place) -> u8
    requires { whole tables.old arena.old ≡ true }
    ensures { PlaceDone names.now (name_place place)
        (memory tables.old arena.old)
        result
        (memory tables.new arena.new) }
{
    let from = place.start as usize;
    let to = from + place.len as usize;
    if names.len() < to {
        return u8::from(Refusal::BadRequest);
    }
    match call_delete::delete_whole(tables, arena, &names[from..to]) {
        Ok(()) => 0,
        Err(refusal) => u8::from(refusal),
    }
}

// The same, with the result at i of the result buffer.
pub(crate) fn delete_at(
    tables: &mut [u8],
    arena: &mut [u8],
    names: &[u8],
    place: Place,
    results: &mut [u8],
    i: usize,
)
    requires { (whole tables.old arena.old ≡ true) × (i < length results.old) }
    ensures { PlaceDoneAt names.now (name_place place) i
        (memory tables.old arena.old)
        results.old
        (memory tables.new arena.new)
        results.new }
{
    results[i] = delete_place(tables, arena, names, place);
}
