// An upload opened, and taken out with its parts.
ghost use Rattle.std.specs.Prelude.{◌≡◌, true};
ghost use Rattle.machine.specs.Pairs.{pairs_ok, pair_list};
ghost use Rattle.machine.specs.State.{with_upload, without_upload, with_next};
ghost use Rattle.machine.specs.Steps.{new_upload};
ghost use Rattle.mem_layout.specs.Memory.{Stands};
ghost use Rattle.mem_find.specs.Places.{place_after};
ghost use Rattle.mem_find.specs.Known.{rows_in, WholeOpenAt, OfOpenAt};
ghost use Rattle.mem_edit.specs.Blocks.{kept_of};
ghost use Rattle.mem_edit.specs.Edits.{MayBecome, Becomes};

use base_md5::words::Digest;
use mem_find::{RowPlace, WholeMemory};
use mem_layout::Header;
use mem_row::Head;

// An upload without parts, put after all rows, at `end`, with the next number. The kept pairs of the request are its
// block, after the last byte held.
pub fn open_upload(
    tables: &mut [u8],
    arena: &mut [u8],
    end: RowPlace,
    stamp: u64,
    path: &[u8],
    pairs: &[u8],
)
    requires { (pairs_ok (pair_list pairs.now) ≡ true) × (end ≡ place_after (rows_in tables.old arena.old))
        × MayBecome tables.old arena.old
        (λ s. with_next (with_upload s s.N (new_upload stamp path.now (kept_of pairs.now)))) }
    ensures { Becomes tables.old arena.old tables.new arena.new
        (λ s. with_next (with_upload s s.N (new_upload stamp path.now (kept_of pairs.now)))) }
{
    let header = mem_layout::headers::read_header(tables);
    let used = end.at;
    let mut lengths = [0u8; 16];
    let block = mem_edit::blocks::write_block(arena, end.base, pairs, b"", &mut lengths);
    let n = block.lengths;
    let h = Head {
        size: block.bytes as u32,
        number: header.next as u32,
        stamp,
        kind: mem_layout::UPLOAD_KIND,
        pairs: (n / 2) as u8,
        pathlen: path.len() as u8,
        count: 0,
    };
    let digest = Digest {
        a: 0,
        b: 0,
        c: 0,
        d: 0,
    };
    let after = Header {
        next: header.next + 1,
        uploads: header.uploads + 1,
        ..header
    };
    mem_edit::rows::replace_rows(tables, used, 0, used, h, digest, path, &lengths[..n], after);
}

// The open upload whose row is at `here`, taken out with its parts. `end` is the end of the rows; the answer is where
// they end then.
pub fn remove_upload(tables: &mut [u8], arena: &mut [u8], here: RowPlace, end: RowPlace) -> RowPlace
    requires { WholeOpenAt tables.old arena.old here × (end ≡ place_after (rows_in tables.old arena.old)) }
    ensures { OfOpenAt tables.old arena.old here
        (λ s u x. Stands tables.new arena.new (without_upload s u))
        × (result ≡ place_after (rows_in tables.new arena.new)) }
{
    let parts = mem_find_uploads::pass_parts(WholeMemory::of(tables, arena), here);
    let next = parts.next;
    let header = mem_layout::headers::read_header(tables);
    let rows = next.row - here.row;
    let n = next.at - here.at;
    let m = next.base - here.base;
    let after = Header {
        uploads: header.uploads - 1,
        parts: header.parts - parts.count as u16,
        ..header
    };
    mem_edit::rows::remove_rows(tables, here.at, n, end.at, after);
    base_buffer::remove(arena, here.base, m, end.base);
    RowPlace {
        row: end.row - rows,
        at: end.at - n,
        base: end.base - m,
    }
}
