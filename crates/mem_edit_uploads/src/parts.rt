// A part put into an open upload. What memory then stands for is said of the upload x that has this number.
ghost use Rattle.machine.specs.State.{with_part};
ghost use Rattle.mem_edit_uploads.specs.Parts.{part_with, UploadBecomes, PartPlaced, PartPuttable};

use base_md5::words::Digest;
use mem_find::{Lookup, RowPlace};
use mem_layout::Header;
use mem_row::Head;

// A part of an open upload becomes this one: its row and its data stand in the place of the old ones, if there are any.
// `place` is what the lookup of the part answers, and `end` the end of the rows.
pub fn put_part(
    tables: &mut [u8],
    arena: &mut [u8],
    upload: u32,
    number: u16,
    place: Lookup,
    end: RowPlace,
    digest: Digest,
    content: &[u8],
)
    requires { PartPlaced tables.old arena.old upload number place end
        × PartPuttable tables.old arena.old upload number digest content.now }
    ensures { UploadBecomes tables.old arena.old tables.new arena.new
        upload (λ x. with_part x number (part_with digest content.now)) }
{
    let old = mem_edit::rows::old_row(tables, place);
    let header = mem_layout::headers::read_header(tables);
    base_buffer::splice(arena, place.base, old.size, end.base, content);
    let h = Head {
        size: content.len() as u32,
        number: number as u32,
        stamp: 0,
        kind: mem_layout::PART_KIND,
        pairs: 0,
        pathlen: 0,
        count: 0,
    };
    let after = Header {
        parts: header.parts + 1 - old.rows,
        ..header
    };
    mem_edit::rows::replace_rows(
        tables, place.at, old.length, end.at, h, digest, b"", b"", after,
    );
}
