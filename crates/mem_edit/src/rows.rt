// Rows put in, replaced and cut out, with the header that the tables then have.
ghost use Rattle.std.specs.Prelude.{◌≡◌, ◌+◌, ◌≤◌, [], true, length, drop};
ghost use Rattle.base_md5.specs.Md5.{bytes_of};
ghost use Rattle.base_buffer.specs.Buffer.{spliced};
ghost use Rattle.mem_layout.specs.Header.{headed, header_length};
ghost use Rattle.mem_row.specs.Row.{numbers_length, head_at, row_bytes};
ghost use Rattle.mem_edit.specs.Rows.{old_row_at, Replaceable};

use base_md5::words::Digest;
use mem_find::Lookup;
use mem_layout::Header;
use mem_row::Head;

// What stands at a place that was looked up: no row, or one, with its length in the tables and its block's in the arena.
#[derive(Clone, Copy)]
pub struct OldRow {
    pub rows: u16,
    pub length: usize,
    pub size: usize,
}

// The row that a lookup found, if it found one.
pub fn old_row(tables: &[u8], place: Lookup) -> OldRow
    requires { place.found ≡ true → place.at + numbers_length ≤ length tables.now }
    ensures { result ≡ old_row_at place.found (head_at (drop place.at tables.now)) }
{
    if !place.found {
        return OldRow {
            rows: 0,
            length: 0,
            size: 0,
        };
    }
    let h = mem_row::read_head(tables, place.at);
    OldRow {
        rows: 1,
        length: mem_row::span(h),
        size: h.size as usize,
    }
}

// The n bytes of rows at `at` give way to a row, where `used` bytes of the tables are used. With n = 0 it is put in.
pub fn replace_rows(
    tables: &mut [u8],
    at: usize,
    n: usize,
    used: usize,
    h: Head,
    digest: Digest,
    path: &[u8],
    lengths: &[u8],
    header: Header,
)
    requires { Replaceable tables.old at n used h path.now lengths.now }
    ensures { tables.new
        ≡ headed (spliced tables.old at n used
        (row_bytes h (bytes_of digest) path.now lengths.now)) header }
{
    let mut row = [0u8; mem_row::LONGEST_ROW];
    mem_row::write_row(&mut row, h, digest, path, lengths);
    let m = mem_row::HEAD_LENGTH + path.len() + lengths.len();
    base_buffer::splice(tables, at, n, used, &row[..m]);
    mem_layout::headers::write_header(tables, header);
}

// The rows of the n bytes at `at`, cut out.
pub fn remove_rows(tables: &mut [u8], at: usize, n: usize, used: usize, header: Header)
    requires { (header_length ≤ at) × (at + n ≤ used) × (used ≤ length tables.old) }
    ensures { tables.new ≡ headed (spliced tables.old at n used []) header }
{
    base_buffer::remove(tables, at, n, used);
    mem_layout::headers::write_header(tables, header);
}
