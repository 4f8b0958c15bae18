// CARRY_OVER: tables of the former layout, whose rows have no pairs, carried over to tables of this one.
#![tactic(auto)]

ghost use Rattle.call_contract.specs.Answers.{done_reply};
ghost use Rattle.call_carry_over.specs.Carry.{Carried};

use call_types::Refusal;

// The former tables, if they are whole over this arena, at the front of the new ones.
pub fn carry_over(former: &[u8], arena: &[u8], tables: &mut [u8]) -> Result<(), Refusal>
    ensures { Carried former.now arena.now tables.old (done_reply result).result tables.new }
{
    if tables.len() != mem_layout::TABLES_LENGTH
        || !mem_scan::whole_of(former, arena, mem_layout::FORMER_TABLES_LENGTH, 0)
    {
        return Err(Refusal::NotAStore);
    }
    base_buffer::copy_at(tables, 0, former);
    Ok(())
}
