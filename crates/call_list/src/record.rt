// LIST's record of a row: each function writes its bytes over the answer buffer from `to` on.
ghost use Rattle.std.specs.Prelude.{◌≡◌, ◌+◌, ◌-◌, ◌≤◌, [], ◌∷◌, ◌++◌, length, take, drop};
ghost use Rattle.base_number.specs.Number.{le, replaced_at, written};
ghost use Rattle.base_text.specs.Text.{decimal};
ghost use Rattle.machine.specs.Etags.{text};
ghost use Rattle.pairs_stored.specs.Stored.{sum_of};
ghost use Rattle.mem_row.specs.Row.{head_at, digest_at, lengths_at, head_length, span};
ghost use Rattle.mem_layout.specs.Memory.{row_etag};
ghost use Rattle.call_list.specs.Rows.{record_at};

// The length of the path in the row at `at`, and the path.
fn write_path(tables: &[u8], at: usize, n: u8, answer: &mut [u8], to: usize)
    requires { (at + head_length + n ≤ length tables.now) × (to + (1 + n) ≤ length answer.old) }
    ensures { answer.new
        ≡ replaced_at answer.old to (n ∷ take n (drop (at + head_length) tables.now)) (1 + n) }
{
    let from = at + mem_row::HEAD_LENGTH;
    let end = from + n as usize;
    answer[to] = n;
    base_buffer::copy_at(answer, to + 1, &tables[from..end]);
}

// The length of the data, the stamp, and the length of the text.
fn write_numbers(answer: &mut [u8], to: usize, size: u32, created: u64, n: u8)
    requires { to + 13 ≤ length answer.old }
    ensures { answer.new ≡ replaced_at answer.old to (le 4 size ++ (le 8 created ++ (n ∷ []))) 13 }
{
    base_number::put_u32(answer, to, size);
    base_number::put_u64(answer, to + 4, created);
    answer[to + 12] = n;
}

// "-" and the count.
fn write_count(answer: &mut [u8], to: usize, count: u16)
    requires { to + (1 + length (decimal count)) ≤ length answer.old }
    ensures { answer.new
        ≡ replaced_at answer.old to (45 ∷ decimal count) (1 + length (decimal count)) }
{
    answer[to] = 45;
    base_text::put_decimal(answer, to + 1, count);
}

// The text of the etag in the row at `at`.
fn write_text(tables: &[u8], at: usize, kind: u8, count: u16, answer: &mut [u8], to: usize)
    requires { (at + head_length ≤ length tables.now)
        × (to + length (text (row_etag kind (digest_at (drop at tables.now)) count)) ≤ length answer.old) }
    ensures { answer.new
        ≡ written answer.old to (text (row_etag kind (digest_at (drop at tables.now)) count)) }
{
    let from = at + mem_row::NUMBERS_LENGTH;
    base_text::put_hex(answer, to, &tables[from..from + 16]);
    if kind != mem_layout::PLAIN_KIND {
        write_count(answer, to + 32, count);
    }
}

// How many bytes of the block of the row at `at` are data, where the block has `size` bytes.
fn data_length(tables: &[u8], at: usize, size: u32) -> u32
    requires { (at + span (head_at (drop at tables.now)) ≤ length tables.now)
        × (sum_of (lengths_at (drop at tables.now)) ≤ size) }
    ensures { result ≡ size - sum_of (lengths_at (drop at tables.now)) }
{
    size - mem_find::pairs_size(tables, at) as u32
}

// The record of the row at `at`; the answer is where it ends.
pub(crate) fn write_record(tables: &[u8], at: usize, answer: &mut [u8], to: usize) -> usize
    requires { (at + span (head_at (drop at tables.now)) ≤ length tables.now)
        × (to + length (record_at (drop at tables.now)) ≤ length answer.old)
        × (sum_of (lengths_at (drop at tables.now)) ≤ (head_at (drop at tables.now)).size) }
    ensures { (result ≡ to + length (record_at (drop at tables.now)))
        × (answer.new ≡ written answer.old to (record_at (drop at tables.now))) }
{
    let h = mem_row::read_head(tables, at);
    let k = crate::measuring::text_length(h.kind, h.count);
    let size = data_length(tables, at, h.size);
    let numbers = to + 1 + h.pathlen as usize;
    let text = numbers + 13;
    write_path(tables, at, h.pathlen, answer, to);
    write_numbers(answer, numbers, size, h.stamp, k as u8);
    write_text(tables, at, h.kind, h.count, answer, text);
    text + k as usize
}
