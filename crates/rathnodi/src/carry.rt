// Tables of the former layout.
ghost use Rattle.call_carry_over.specs.Carry.{Carried};

// CARRY_OVER: the former tables, if they are whole over the arena, to the front of the new ones.
pub fn rathnodi_carry_over(former: &[u8], arena: &[u8], tables: &mut [u8]) -> u32
    ensures { Carried former.now arena.now tables.old result tables.new }
{
    let carried = store::carry_over(former, arena, tables);
    c_reply::done(carried)
}
