// An object put among the others, and taken out.
ghost use Rattle.std.specs.Prelude.{◌≡◌, true};
ghost use Rattle.machine.specs.State.{without_object, with_object};
ghost use Rattle.mem_layout.specs.Memory.{Stands};
ghost use Rattle.mem_find.specs.Places.{place_after};
ghost use Rattle.mem_find.specs.Known.{rows_in, WholeLookup, OfPath, ObjectPlaced};
ghost use Rattle.machine.specs.Pairs.{pairs_ok, pair_list};
ghost use Rattle.mem_edit.specs.Blocks.{kept_of};
ghost use Rattle.mem_edit.specs.Edits.{MayBecome, Becomes};
ghost use Rattle.mem_edit.specs.Objects.{RowPuttable, row_put, Movable, object_after_held, plain_with};

use crate::rows::OldRow;
use base_md5::words::Digest;
use mem_find::{Lookup, RowPlace};
use mem_layout::Header;
use mem_row::Head;

// The object that a lookup found, taken out. `end` is the end of the rows.
pub fn remove_object(tables: &mut [u8], arena: &mut [u8], place: Lookup, end: RowPlace)
    requires { WholeLookup tables.old arena.old place × (place.found ≡ true)
        × (end ≡ place_after (rows_in tables.old arena.old)) }
    ensures { OfPath tables.old arena.old place
        (λ s p. Stands tables.new arena.new (without_object s p)) }
{
    let header = mem_layout::headers::read_header(tables);
    let at = place.at;
    let base = place.base;
    let h = mem_row::read_head(tables, at);
    let n = mem_row::span(h);
    let m = h.size as usize;
    let after = Header {
        objects: header.objects - 1,
        ..header
    };
    crate::rows::remove_rows(tables, at, n, end.at, after);
    base_buffer::remove(arena, base, m, end.base);
}

// The row of an object whose block has `size` bytes, in the place of the old one, if there is one, where `used` bytes of
// the tables are used.
pub fn put_row(
    tables: &mut [u8],
    at: usize,
    old: OldRow,
    used: usize,
    stamp: u64,
    kind: u8,
    count: u16,
    digest: Digest,
    path: &[u8],
    lengths: &[u8],
    size: usize,
)
    requires { RowPuttable tables.old at old used stamp kind count path.now lengths.now size }
    ensures { tables.new ≡ row_put tables.old at old used stamp kind count digest
        path.now lengths.now size }
{
    let header = mem_layout::headers::read_header(tables);
    let h = Head {
        size: size as u32,
        number: 0,
        stamp,
        kind,
        pairs: (lengths.len() / 2) as u8,
        pathlen: path.len() as u8,
        count,
    };
    let after = Header {
        objects: header.objects + 1 - old.rows,
        ..header
    };
    crate::rows::replace_rows(
        tables, at, old.length, used, h, digest, path, lengths, after,
    );
}

// The object at path becomes one with this data and these pairs, and a plain etag: its row and its block stand in the
// place of the old ones, if there are any. `place` is what the lookup of path answers, and `end` the end of the rows.
pub fn put_object(
    tables: &mut [u8],
    arena: &mut [u8],
    place: Lookup,
    end: RowPlace,
    stamp: u64,
    digest: Digest,
    path: &[u8],
    content: &[u8],
    pairs: &[u8],
)
    requires { ObjectPlaced tables.old arena.old path.now place end × (pairs_ok (pair_list pairs.now) ≡ true)
        × MayBecome tables.old arena.old
        (λ s. with_object s path.now (plain_with stamp digest content.now (kept_of pairs.now))) }
    ensures { Becomes tables.old arena.old tables.new arena.new
        (λ s. with_object s path.now
        (plain_with stamp digest content.now (kept_of pairs.now))) }
{
    let old = crate::rows::old_row(tables, place);
    let mut lengths = [0u8; 16];
    let block = crate::blocks::replace_block(
        arena,
        place.base,
        old.size,
        end.base,
        pairs,
        content,
        &mut lengths,
    );
    let n = block.lengths;
    put_row(
        tables,
        place.at,
        old,
        end.at,
        stamp,
        mem_layout::PLAIN_KIND,
        0,
        digest,
        path,
        &lengths[..n],
        block.bytes,
    );
}

// The object at path becomes one whose block, `size` bytes, stands after the last byte held: pairs of these lengths,
// then data. Its row and its block come to stand in the place of the old ones, if there are any. `place` is what the
// lookup of path answers, and `end` the end of the rows.
pub fn move_object(
    tables: &mut [u8],
    arena: &mut [u8],
    place: Lookup,
    end: RowPlace,
    stamp: u64,
    kind: u8,
    count: u16,
    digest: Digest,
    path: &[u8],
    lengths: &[u8],
    size: usize,
)
    requires { ObjectPlaced tables.old arena.old path.now place end
        × Movable tables.old arena.old stamp kind count digest path.now lengths.now size }
    ensures { Becomes tables.old arena.old tables.new arena.new
        (λ s. with_object s path.now
        (object_after_held tables.old arena.old stamp kind count digest
        lengths.now size)) }
{
    let old = crate::rows::old_row(tables, place);
    let base = place.base;
    let held = end.base;
    base_buffer::rotate(arena, base, held - base, size);
    base_buffer::remove(arena, base + size, old.size, held + size);
    put_row(
        tables, place.at, old, end.at, stamp, kind, count, digest, path, lengths, size,
    );
}
