// The DELETE of each place of a list, wherever the places stand.
ghost use Rattle.std.specs.Prelude.{ℕ, ◌<◌, List};
ghost use Rattle.machine.specs.Calls.{NamePlace, DELETE-OBJECTS};
ghost use Rattle.call_contract.specs.Answers.{results_reply};
ghost use Rattle.call_contract.specs.Made.{memory, Made};
ghost use Rattle.call_delete_objects.specs.Given.{Gives};

use crate::{judge, place};
use call_types::{Place, Refusal};

// DELETE_OBJECTS of `count` places, which `at` gives by their index, with `left` bytes left over after them.
pub(crate) fn delete_listed<F: Fn(usize) -> Place>(
    tables: &mut [u8],
    arena: &mut [u8],
    names: &[u8],
    count: usize,
    left: usize,
    at: F,
    results: &mut [u8],
) -> Result<(), Refusal>
    requires { (i : ℕ) → i < count → F.pre at i }
    ensures { (ps : List NamePlace) → Gives (F.post at) count ps → Made
        (DELETE-OBJECTS names.now ps left results.old)
        (memory tables.old arena.old)
        (results_reply result results.new)
        (memory tables.new arena.new) }
{
    judge::judge(tables, arena, count, left, results.len())?;
    for i in 0..count {
        let p = at(i);
        place::delete_at(tables, arena, names, p, results, i);
    }
    Ok(())
}
