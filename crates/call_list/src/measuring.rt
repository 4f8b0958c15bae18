// What LIST writes, measured.
ghost use Rattle.std.specs.Prelude.{◌≡◌, ℕ, ◌+◌, ◌≤◌, List, length, drop};
ghost use Rattle.machine.specs.Etags.{text};
ghost use Rattle.machine.specs.Steps.{listed};
ghost use Rattle.mem_row.specs.Row.{head_at, span};
ghost use Rattle.mem_layout.specs.Memory.{state_of, row_etag};
ghost use Rattle.call_list.specs.Rows.{record_at, list_bytes, AllListed};

use call_types::Counts;
use mem_find::WholeMemory;

// How long the text of an etag is.
pub(crate) fn text_length(kind: u8, count: u16) -> u32
    ensures { (result ≤ 38) × ((d : List ℕ) → length d ≡ 16 → result ≡ length (text (row_etag kind d count))) }
{
    if kind == mem_layout::PLAIN_KIND {
        return 32;
    }
    33 + base_text::decimal_length(count) as u32
}

// How long the record of the row at `at` is.
fn record_length(tables: &[u8], at: usize) -> u32
    requires { at + span (head_at (drop at tables.now)) ≤ length tables.now }
    ensures long { result ≡ length (record_at (drop at tables.now)) }
    ensures short { result ≤ 307 }
{
    let h = mem_row::read_head(tables, at);
    14 + base_number::wide(h.pathlen) as u32 + text_length(h.kind, h.count)
}

// How many records and bytes LIST writes in all, and where the rows stand that have a record.
pub(crate) fn measure_rows(
    memory: WholeMemory,
    prefix: &[u8],
    suffix: &[u8],
    places: &mut [u8],
) -> Counts
    requires { length places.old ≡ 512 }
    ensures counted { result.records
        ≡ length (listed prefix.now suffix.now (state_of memory.entry.tables.now memory.entry.arena.now).O) }
    ensures sized { result.bytes
        ≡ length (list_bytes prefix.now suffix.now (state_of memory.entry.tables.now memory.entry.arena.now)) }
    ensures placed { AllListed (state_of memory.entry.tables.now memory.entry.arena.now)
        prefix.now suffix.now places.new result.records }
    ensures few { result.records ≤ 256 }
{
    let tables = memory.tables;
    let objects = memory.counts().objects;
    let mut at: usize = mem_layout::HEADER_LENGTH;
    let mut records: u32 = 0;
    let mut bytes: u32 = 0;
    for i in 0..objects {
        let h = mem_row::read_head(tables, at);
        if crate::paths::has_row(tables, at, prefix, suffix) {
            base_number::put_u16(places, 2 * records as usize, at as u16);
            records += 1;
            bytes += record_length(tables, at);
        }
        at += mem_row::span(h);
    }
    Counts { records, bytes }
}
