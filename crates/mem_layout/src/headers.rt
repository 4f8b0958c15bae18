// The header of the tables, read, written and judged.
ghost use Rattle.std.specs.Prelude.{◌≡◌, ◌≤◌, length};
ghost use Rattle.mem_layout.specs.Header.{header_length, header_at, headed};
ghost use Rattle.mem_layout.specs.Memory.{header_ok};

use crate::Header;

// The header, as it stands in the first bytes.
pub fn read_header(t: &[u8]) -> Header
    requires { header_length ≤ length t.now }
    ensures { result ≡ header_at t.now }
{
    Header {
        arena: base_number::get_u32(t, 0),
        next: base_number::get_u64(t, 4),
        objects: base_number::get_u16(t, 12),
        uploads: base_number::get_u16(t, 14),
        parts: base_number::get_u16(t, 16),
    }
}

// h over the first bytes of the tables.
pub fn write_header(tables: &mut [u8], h: Header)
    requires { header_length ≤ length tables.old }
    ensures { tables.new ≡ headed tables.old h }
{
    base_number::put_u32(tables, 0, h.arena);
    base_number::put_u64(tables, 4, h.next);
    base_number::put_u16(tables, 12, h.objects);
    base_number::put_u16(tables, 14, h.uploads);
    base_number::put_u16(tables, 16, h.parts);
}

// The header of a store whose tables and arena have these lengths, by a layout whose tables have `length` bytes.
#[tactic(auto, using(machine::proofs::Tests::tests), unfolding(crate::specs::Rules::all, crate::specs::Memory::header_ok))]
pub fn header_ok(h: Header, length: usize, tables: usize, arena: usize) -> bool
    ensures { result ≡ header_ok length tables arena h }
{
    tables == length
        && arena <= crate::ARENA_MOST
        && h.arena as usize == arena
        && 1 <= h.next
        && h.next <= 4294967296
        && h.objects as usize <= crate::OBJECTS_MOST
        && h.uploads as usize <= crate::UPLOADS_MOST
        && h.parts as usize <= crate::PARTS_MOST
}
