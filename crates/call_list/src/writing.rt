// What LIST writes, written to the answer buffer.
ghost use Rattle.std.specs.Prelude.{◌≡◌, ◌≤◌, length};
ghost use Rattle.base_number.specs.Number.{fronted};
ghost use Rattle.machine.specs.Steps.{listed};
ghost use Rattle.mem_layout.specs.Memory.{state_of};
ghost use Rattle.call_list.specs.Rows.{list_bytes, AllListed};

use mem_find::WholeMemory;

// The records of the rows that stand at the first places, over the front of the answer buffer. They are those that begin with
// `prefix` and end with `suffix`.
pub(crate) fn write_rows(
    memory: WholeMemory,
    prefix: &[u8],
    suffix: &[u8],
    places: &[u8],
    records: u32,
    answer: &mut [u8],
)
    requires long { length places.now ≡ 512 }
    requires few { records ≤ 256 }
    requires counted { records ≡ length (listed prefix.now suffix.now (state_of memory.tables.now memory.arena.now).O) }
    requires placed { AllListed (state_of memory.tables.now memory.arena.now) prefix.now suffix.now places.now records }
    requires fits { length (list_bytes prefix.now suffix.now (state_of memory.tables.now memory.arena.now))
        ≤ length answer.old }
    ensures { answer.new ≡ fronted answer.old
        (list_bytes prefix.now suffix.now (state_of memory.entry.tables.now memory.entry.arena.now)) }
{
    let mut to: usize = 0;
    for i in 0..records {
        let at = base_number::get_u16(places, 2 * i as usize) as usize;
        to = crate::record::write_record(memory.tables, at, answer, to);
    }
}
