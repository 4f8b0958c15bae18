// What the functions of all verbs share: the refusal of a line.
#![tactic(auto)]

ghost use Rattle.std.specs.Prelude.{◌≡◌};
ghost use Rattle.call_types.specs.Numbers.{number_of};
ghost use Rattle.call_contract.specs.Made.{memory};
ghost use Rattle.recording_line.specs.Replayed.{refusal_over};

use call_types::Refusal;

// A refusal, which comes after 1.
pub fn refusal(tables: &[u8], arena: &[u8], refusal: Refusal) -> Refusal
    ensures { number_of result ≡ refusal_over (number_of refusal) (memory tables.now arena.now) }
{
    match mem_scan::scan_store(tables, arena) {
        Some(_) => refusal,
        None => Refusal::NotAStore,
    }
}
