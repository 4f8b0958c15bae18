// An upload's parts, brought into listed order where they stand, and the digest of their digests.
#![tactic(auto)]

mod digests;

ghost use Rattle.std.specs.Prelude.{◌≡◌};
ghost use Rattle.mem_join_order.specs.Region.{PartAt, found_in, Brought};
ghost use Rattle.mem_join_order.specs.Region.{ListedAt, ordered_tables, ordered_arena, Arrangeable, Arranged};

use base_md5::words::Digest;

// The bytes of rows and of data before a part's, and the size of its data.
#[derive(Clone, Copy)]
pub struct Found {
    pub rows: usize,
    pub bytes: usize,
    pub size: usize,
}

// Part `number` among the parts at `at`.
fn find_row(tables: &[u8], arena: &[u8], at: usize, base: usize, number: u32) -> Found
    requires { PartAt tables.now arena.now at base number }
    ensures { (k : PartAt tables.now arena.now at base number)
        → result ≡ found_in k.region.parts number k.part }
{
    let mut rows: usize = 0;
    let mut bytes: usize = 0;
    loop {
        let h = mem_row::read_head(tables, at + rows);
        if h.number == number {
            return Found {
                rows,
                bytes,
                size: h.size as usize,
            };
        }
        rows += mem_row::HEAD_LENGTH;
        bytes += h.size as usize;
    }
}

// Part `number` brought to the front of the parts at `at`, with its data at `base`; the size of its data.
fn bring(tables: &mut [u8], arena: &mut [u8], at: usize, base: usize, number: u32) -> usize
    requires { PartAt tables.old arena.old at base number }
    ensures { (k : PartAt tables.old arena.old at base number)
        → Brought tables.old arena.old at base number k
        tables.new arena.new result }
{
    let f = find_row(tables, arena, at, base, number);
    base_buffer::rotate(tables, at, f.rows, mem_row::HEAD_LENGTH);
    base_buffer::rotate(arena, base, f.bytes, f.size);
    f.size
}

// The parts at `at` brought into listed order, with their data at `base`: each listed part to the front of those that
// remain.
fn order_parts(tables: &mut [u8], arena: &mut [u8], at: usize, base: usize, list: &[u8])
    requires { ListedAt tables.old arena.old at base list.now }
    ensures { (k : ListedAt tables.old arena.old at base list.now)
        → (tables.new ≡ ordered_tables tables.old arena.old at base list.now k)
        × (arena.new
        ≡ ordered_arena tables.old arena.old at base list.now k) }
{
    let mut row_at = at;
    let mut data_at = base;
    let mut i: usize = 0;
    while i < list.len() {
        let number = base_number::get_u16(list, i);
        let size = bring(tables, arena, row_at, data_at, number as u32);
        row_at += mem_row::HEAD_LENGTH;
        data_at += size;
        i += 2;
    }
}

// The same, and then the digest of the digests in listed order. `ascends` says that the parts stand in listed order already.
pub fn arrange(
    tables: &mut [u8],
    arena: &mut [u8],
    at: usize,
    base: usize,
    list: &[u8],
    ascends: bool,
) -> Digest
    requires { Arrangeable tables.old arena.old at base list.now ascends }
    ensures { (k : Arrangeable tables.old arena.old at base list.now ascends)
        → Arranged tables.old arena.old at base list.now k.listed_at
        tables.new arena.new result }
{
    let unordered = !ascends;
    if unordered {
        order_parts(tables, arena, at, base, list);
    }
    digests::joined_digest(tables, at, list.len() / 2)
}
