// An empty store.
ghost use Rattle.std.specs.Prelude.{◌≡◌};
ghost use Rattle.mem_layout.specs.Memory.{tables_length};
ghost use Rattle.call_contract.specs.Made.{memory, MadeFresh};

// The one right length of the tables.
pub fn rathnodi_tables_len() -> usize
    ensures { result ≡ tables_length }
{
    mem_layout::TABLES_LENGTH
}

// FRESH: an empty store, whatever the slices hold.
pub fn rathnodi_fresh(tables: &mut [u8], arena: &mut [u8]) -> u32
    ensures { MadeFresh (memory tables.old arena.old) result (memory tables.new arena.new) }
{
    let made = store::fresh(tables, arena);
    c_reply::done(made)
}
