// What every call of the store promises, and the check that each makes first.
#![tactic(auto)]

ghost use Rattle.std.specs.Prelude.{◌≡◌, false, IfOk, IfErr};
ghost use Rattle.call_types.specs.declared.Refusal.TheVariants.{NotAStore};
ghost use Rattle.mem_layout.specs.Memory.{whole};
ghost use Rattle.mem_scan.specs.Scanned.{Scanned};

use call_types::Refusal;
use mem_scan::Offsets;

// Where the rows of whole memory stand; memory that is not whole is not a store, the first refusal of each call.
pub fn offsets_of(tables: &[u8], arena: &[u8]) -> Result<Offsets, Refusal>
    ensures is_whole { IfOk result (λ o. Scanned tables.now arena.now o) }
    ensures not_whole { IfErr result (λ r. (r ≡ NotAStore) × (whole tables.now arena.now ≡ false)) }
{
    mem_scan::scan_store(tables, arena).ok_or(Refusal::NotAStore)
}
