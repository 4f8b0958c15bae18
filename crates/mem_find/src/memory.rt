// Whole memory, lent to be read.
ghost use Rattle.std.specs.Prelude.{◌≡◌, true};
ghost use Rattle.base_number.specs.Number.{AreBytes};
ghost use Rattle.mem_layout.specs.Memory.{whole};

// Tables and an arena that are whole.
#[derive(Clone, Copy)]
pub struct WholeMemory<'a> {
    pub tables: &'a [u8],
    pub arena: &'a [u8],
    ghost bytes: { AreBytes tables.now },
    ghost is_whole: { whole tables.now arena.now ≡ true },
}

impl<'a> WholeMemory<'a> {
    // Memory that is known to be whole.
    pub fn of(tables: &'a [u8], arena: &'a [u8]) -> WholeMemory<'a>
        requires { whole tables.now arena.now ≡ true }
        ensures tables { result.tables.now ≡ tables.now }
        ensures arena { result.arena.now ≡ arena.now }
    {
        WholeMemory { tables, arena }
    }
}
