// UPLOADS' records, written to the front of the answer buffer.
ghost use Rattle.std.specs.Prelude.{◌≡◌, ◌+◌, ◌*◌, ◌≤◌, ◌<◌, length, drop};
ghost use Rattle.base_number.specs.Number.{le, replaced_at, written, fronted};
ghost use Rattle.mem_row.specs.Row.{head_at, span};
ghost use Rattle.call_uploads.specs.Records.{record_of, record_at};
ghost use Rattle.call_uploads.specs.Notes.{RowsNoted, records_noted};

// A byte over the one at `at`.
fn put_byte(answer: &mut [u8], at: usize, v: u8)
    requires { at + 1 ≤ length answer.old }
    ensures { answer.new ≡ replaced_at answer.old at (le 1 v) 1 }
{
    answer[at] = v;
}

// A record over the bytes from `at` on; the rest of the answer buffer is as it was.
fn write_record(answer: &mut [u8], at: usize, number: u32, path: &[u8], started: u64, parts: u16)
    requires { (length path.now < 256) × (at + (15 + length path.now) ≤ length answer.old) }
    ensures { answer.new
        ≡ replaced_at answer.old at (record_of number path.now started parts)
        (15 + length path.now) }
{
    let n = path.len();
    base_number::put_u32(answer, at, number);
    put_byte(answer, at + 4, n as u8);
    base_buffer::copy_at(answer, at + 5, path);
    base_number::put_u64(answer, at + 5 + n, started);
    base_number::put_u16(answer, at + 13 + n, parts);
}

// The record of the upload in the row at `at`, which has so many parts; the answer is where it ends.
fn write_row(tables: &[u8], at: usize, parts: u16, answer: &mut [u8], to: usize) -> usize
    requires { (at + span (head_at (drop at tables.now)) ≤ length tables.now)
        × (to + length (record_at tables.now at parts) ≤ length answer.old) }
    ensures { (result ≡ to + length (record_at tables.now at parts))
        × (answer.new ≡ written answer.old to (record_at tables.now at parts)) }
{
    let h = mem_row::read_head(tables, at);
    let from = at + mem_row::HEAD_LENGTH;
    let end = from + h.pathlen as usize;
    write_record(answer, to, h.number, &tables[from..end], h.stamp, parts);
    to + 15 + h.pathlen as usize
}

// The records of the first notes, to the front of the answer buffer.
pub(crate) fn write(tables: &[u8], notes: &[u8], records: u32, answer: &mut [u8])
    requires { (4 * records ≤ length notes.now)
        × RowsNoted tables.now notes.now records
        × (length (records_noted tables.now notes.now records) ≤ length answer.old) }
    ensures { answer.new ≡ fronted answer.old
        (records_noted tables.now notes.now records) }
{
    let mut to: usize = 0;
    for i in 0..records {
        let at = base_number::get_u16(notes, 4 * i as usize) as usize;
        let parts = base_number::get_u16(notes, 4 * i as usize + 2);
        to = write_row(tables, at, parts, answer, to);
    }
}
