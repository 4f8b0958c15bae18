// FRESH.
#![tactic(auto)]

ghost use Rattle.call_types.specs.Numbers.{result_number};
ghost use Rattle.call_contract.specs.Made.{memory, MadeFresh};

use call_types::Refusal;
use mem_layout::Header;

// FRESH: an empty store, whatever the slices hold.
pub fn fresh(tables: &mut [u8], arena: &mut [u8]) -> Result<(), Refusal>
    ensures { MadeFresh (memory tables.old arena.old) (result_number result) (memory tables.new arena.new) }
{
    if tables.len() != mem_layout::TABLES_LENGTH {
        return Err(Refusal::NotAStore);
    }
    if mem_layout::ARENA_MOST < arena.len() {
        return Err(Refusal::BadRequest);
    }
    let header = Header {
        arena: arena.len() as u32,
        next: 1,
        objects: 0,
        uploads: 0,
        parts: 0,
    };
    mem_layout::headers::write_header(tables, header);
    Ok(())
}
