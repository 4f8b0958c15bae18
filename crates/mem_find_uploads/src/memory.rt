// Whole memory, lent to be read, and where its rows stand.
ghost use Rattle.std.specs.Prelude.{◌≡◌};
ghost use Rattle.mem_scan.specs.Scanned.{Scanned, offsets_in};

use mem_find::WholeMemory;
use mem_scan::Offsets;

// Whole memory, and what the test "whole" found.
#[derive(Clone, Copy)]
pub struct ScannedMemory<'a> {
    pub whole: WholeMemory<'a>,
    pub offsets: Offsets,
    ghost scanned: { offsets ≡ offsets_in whole.tables.now },
}

impl<'a> ScannedMemory<'a> {
    // Memory whose rows are known to stand at `offsets`.
    pub fn of(tables: &'a [u8], arena: &'a [u8], offsets: Offsets) -> ScannedMemory<'a>
        requires { Scanned tables.now arena.now offsets }
        ensures tables { result.whole.tables.now ≡ tables.now }
        ensures arena { result.whole.arena.now ≡ arena.now }
        ensures offsets { result.offsets ≡ offsets }
    {
        ScannedMemory {
            whole: WholeMemory { tables, arena },
            offsets,
        }
    }
}
