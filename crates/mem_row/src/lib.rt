// The rows of the tables: numbers, digest, path and the lengths of pairs, read and written.
#![tactic(auto)]

ghost use Rattle.std.specs.Prelude.{◌≡◌, [], ◌++◌, ◌+◌, ◌*◌, ◌≤◌, ◌<◌, length, drop};
ghost use Rattle.base_md5.specs.Md5.{bytes_of};
ghost use Rattle.mem_row.specs.Row.{numbers_length, head_length, span, row_bytes, head_at};

use base_md5::words::Digest;

// Where the digest stands in a row, after the numbers.
pub const NUMBERS_LENGTH: usize = 20;

// Where the path stands in a row, after the digest; the length of a row without a path and pairs.
pub const HEAD_LENGTH: usize = 36;

// The length of a row whose path has 128 bytes and which has 8 pairs, the most.
pub const LONGEST_ROW: usize = 180;

// The numbers of a row.
#[derive(Clone, Copy)]
pub struct Head {
    pub size: u32,
    pub number: u32,
    pub stamp: u64,
    pub kind: u8,
    pub pairs: u8,
    pub pathlen: u8,
    pub count: u16,
}

// The numbers of the row at `at`.
pub fn read_head(t: &[u8], at: usize) -> Head
    requires { at + numbers_length ≤ length t.now }
    ensures { result ≡ head_at (drop at t.now) }
{
    let shared = t[at + 16];
    Head {
        size: base_number::get_u32(t, at),
        number: base_number::get_u32(t, at + 4),
        stamp: base_number::get_u64(t, at + 8),
        kind: shared % 4,
        pairs: shared / 4,
        pathlen: t[at + 17],
        count: base_number::get_u16(t, at + 18),
    }
}

// How many bytes the row with this head takes.
pub fn span(h: Head) -> usize
    ensures { result ≡ span h }
{
    HEAD_LENGTH + base_number::wide(h.pathlen) as usize + 2 * base_number::wide(h.pairs) as usize
}

// The numbers of a head, over the first bytes.
fn write_numbers(out: &mut [u8], h: Head)
    requires { (numbers_length ≤ length out.old) × (h.kind + 4 * h.pairs < 256) }
    ensures { out.new ≡ row_bytes h [] [] [] ++ drop numbers_length out.old }
{
    base_number::put_u32(out, 0, h.size);
    base_number::put_u32(out, 4, h.number);
    base_number::put_u64(out, 8, h.stamp);
    let first = base_number::wide(h.kind) + 4 * base_number::wide(h.pairs);
    base_number::put_u16(out, 16, first + 256 * base_number::wide(h.pathlen));
    base_number::put_u16(out, 18, h.count);
}

// A row, over the first bytes.
pub fn write_row(out: &mut [u8], h: Head, digest: Digest, path: &[u8], lengths: &[u8])
    requires { (head_length + length path.now + length lengths.now ≤ length out.old)
        × (h.kind + 4 * h.pairs < 256) }
    ensures { out.new
        ≡ row_bytes h (bytes_of digest) path.now lengths.now
        ++ drop (head_length + length path.now + length lengths.now) out.old }
{
    write_numbers(out, h);
    base_md5::put(out, NUMBERS_LENGTH, digest);
    base_buffer::copy_at(out, HEAD_LENGTH, path);
    base_buffer::copy_at(out, HEAD_LENGTH + path.len(), lengths);
}
