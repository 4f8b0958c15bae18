// An object copied, to another path or to its own.
#![tactic(auto)]

ghost use Rattle.std.specs.Prelude.{◌≡◌, ◌+◌, ◌≤◌, length};
ghost use Rattle.mem_row.specs.Row.{head_length};
ghost use Rattle.mem_edit.specs.Edits.{Becomes};
ghost use Rattle.mem_edit_copy.specs.Copy.{restamped, copied, Copiable, CopyPlaced};

use base_md5::words::Digest;
use mem_find::{Lookup, RowPlace};
use mem_row::Head;

// The object whose row is at `at` gets another stamp and a plain etag: the front of the row is written anew. Its path,
// pairs and data stay.
fn restamp(tables: &mut [u8], at: usize, stamp: u64, digest: Digest)
    requires { at + head_length ≤ length tables.old }
    ensures { tables.new ≡ restamped tables.old at stamp digest }
{
    let old = mem_row::read_head(tables, at);
    let h = Head {
        number: 0,
        stamp,
        kind: mem_layout::PLAIN_KIND,
        count: 0,
        ..old
    };
    let mut front = [0u8; mem_row::HEAD_LENGTH];
    mem_row::write_row(&mut front, h, digest, b"", b"");
    base_buffer::copy_at(tables, at, &front);
}

// The object at source copied: destination then has its data and pairs, with this stamp and a plain etag. Row and block
// stand in the place of the old ones, if there are any. `from` is what the lookup of source answers, `place` that of
// destination, and `end` the end of the rows.
pub fn copy_object(
    tables: &mut [u8],
    arena: &mut [u8],
    stamp: u64,
    digest: Digest,
    from: Lookup,
    place: Lookup,
    end: RowPlace,
    source: &[u8],
    destination: &[u8],
)
    requires { Copiable tables.old arena.old stamp digest source.now destination.now
        × CopyPlaced tables.old arena.old source.now destination.now from place end }
    ensures { Becomes tables.old arena.old tables.new arena.new
        (copied stamp digest source.now destination.now) }
{
    let at = from.at;
    if base_order::equal(source, destination) {
        restamp(tables, at, stamp, digest);
        return;
    }
    let old = mem_edit::rows::old_row(tables, place);
    let h = mem_row::read_head(tables, at);
    let size = h.size as usize;
    let kept = mem_find::row_pairs::lengths(tables, at);
    let n = kept.len();
    let mut lengths = [0u8; 16];
    base_buffer::copy_at(&mut lengths, 0, kept);
    base_buffer::splice_within(arena, place.base, old.size, end.base, from.base, size);
    mem_edit::objects::put_row(
        tables,
        place.at,
        old,
        end.at,
        stamp,
        mem_layout::PLAIN_KIND,
        0,
        digest,
        destination,
        &lengths[..n],
        size,
    );
}
