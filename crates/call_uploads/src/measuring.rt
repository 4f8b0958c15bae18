// UPLOADS' records, counted and measured, and their uploads noted: where the row stands, and how many parts there are.
ghost use Rattle.std.specs.Prelude.{◌≡◌, ◌+◌, ◌*◌, ◌≤◌, ◌<◌, length};
ghost use Rattle.machine.specs.Steps.{open_under};
ghost use Rattle.mem_layout.specs.Memory.{state_of};
ghost use Rattle.call_uploads.specs.Records.{records_under};
ghost use Rattle.call_uploads.specs.Notes.{noted, AllNoted};

use call_types::Counts;
use mem_find_uploads::ScannedMemory;

// Note k: where an upload's row stands, and how many parts it has.
fn put_note(notes: &mut [u8], k: u32, at: usize, parts: u16)
    requires { (4 * k + 4 ≤ length notes.old) × (at < 65536) }
    ensures { notes.new ≡ noted notes.old k at parts }
{
    let to = 4 * k as usize;
    base_number::put_u16(notes, to, at as u16);
    base_number::put_u16(notes, to + 2, parts);
}

// How many records and bytes UPLOADS has, and its uploads noted.
pub(crate) fn measure(memory: ScannedMemory, prefix: &[u8], notes: &mut [u8]) -> Counts
    requires { length notes.old ≡ 64 }
    ensures counted { result.records
        ≡ length (open_under prefix.now (state_of memory.entry.whole.tables.now memory.entry.whole.arena.now).U) }
    ensures sized { result.bytes
        ≡ length (records_under prefix.now (state_of memory.entry.whole.tables.now memory.entry.whole.arena.now)) }
    ensures noted { AllNoted (state_of memory.entry.whole.tables.now memory.entry.whole.arena.now)
        prefix.now notes.new result.records }
    ensures few { result.records ≤ 16 }
{
    let whole = memory.whole;
    let tables = whole.tables;
    let uploads = whole.counts().uploads;
    let mut here = mem_find_uploads::first_upload(memory);
    let mut records: u32 = 0;
    let mut bytes: u32 = 0;
    for i in 0..uploads {
        let u = crate::rows::read_upload(whole, here);
        let path = &tables[u.from..u.to];
        if base_order::begins_with(path, prefix) {
            put_note(notes, records, here.at, u.parts);
            records += 1;
            bytes += 15 + path.len() as u32;
        }
        here = u.next;
    }
    Counts { records, bytes }
}
