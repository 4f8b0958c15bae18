// An upload's parts joined in listed order into an object.
#![tactic(auto)]

ghost use Rattle.std.specs.Prelude.{◌≡◌, true, [], ◌+◌, ◌-◌};
ghost use Rattle.base_buffer.specs.Buffer.{spliced, rotated};
ghost use Rattle.mem_layout.specs.Memory.{whole, state_of};
ghost use Rattle.mem_layout.specs.Header.{headed};
ghost use Rattle.mem_find.specs.Places.{place_after, passed_parts};
ghost use Rattle.mem_find.specs.Known.{rows_in, WholeOpenAt, OfOpen, OfOpenAt};
ghost use Rattle.machine.specs.PartLists.{part_list};
ghost use Rattle.mem_join_order.specs.Region.{InOrder};
ghost use Rattle.mem_join.specs.Bounds.{Inside, bounds_of, end_after};
ghost use Rattle.mem_join.specs.Joined.{Listed, Joins, TakenOut, Joinable, JoinableAt, JoinableWith};

use base_md5::words::Digest;
use mem_find::{Lookup, PassedParts, RowPlace};
use mem_layout::Header;

// Where an upload's row, its first part's row, the rows after its parts and the free bytes begin in the tables; where
// its block and its parts' data begin in the arena, the size of both together, and what is held; how many parts it has,
// and how many rows there are in all.
#[derive(Clone, Copy)]
pub struct Bounds {
    pub at: usize,
    pub first: usize,
    pub after: usize,
    pub used: usize,
    pub base: usize,
    pub parts: usize,
    pub size: usize,
    pub held: usize,
    pub count: usize,
    pub rows: usize,
}

// What is known of an upload that was taken out: the digest of its parts' digests, the size of its pairs and their data,
// how many parts it had; and where the rows end that are left.
#[derive(Clone, Copy)]
pub struct Taken {
    pub digest: Digest,
    pub size: usize,
    pub count: u16,
    pub end: RowPlace,
}

// The bounds of the open upload whose row is `here`, with what the pass over its parts answers, and the end of the rows.
pub fn upload_bounds(
    tables: &[u8],
    arena: &[u8],
    here: RowPlace,
    parts: PassedParts,
    end: RowPlace,
) -> Bounds
    requires { WholeOpenAt tables.now arena.now here
        × OfOpenAt tables.now arena.now here (λ s u x. parts ≡ passed_parts s u x)
        × (end ≡ place_after (rows_in tables.now arena.now)) }
    ensures { OfOpenAt tables.now arena.now here (λ s u x. result ≡ bounds_of s u x) }
{
    let next = parts.next;
    let at = here.at;
    let base = here.base;
    let h = mem_row::read_head(tables, at);
    let data = base + h.size as usize;
    Bounds {
        at,
        first: next.at - mem_row::HEAD_LENGTH * parts.count,
        after: next.at,
        used: end.at,
        base,
        parts: data,
        size: next.base - base,
        held: end.base,
        count: parts.count,
        rows: end.row,
    }
}

// The upload's rows cut out, and its pairs and its parts' data moved to after the last byte that is still held. The
// answer is where the rows end then.
fn cut(tables: &mut [u8], arena: &mut [u8], b: Bounds, header: Header) -> RowPlace
    requires { Inside tables.old arena.old b }
    ensures { (tables.new
        ≡ headed (spliced tables.old b.at (b.after - b.at) b.used []) header)
        × (arena.new ≡ rotated arena.old b.base b.size (b.held - (b.base + b.size)))
        × (result ≡ end_after b) }
{
    let width = b.after - b.at;
    let left = RowPlace {
        row: b.rows - (1 + b.count),
        at: b.used - width,
        base: b.held - b.size,
    };
    let end = b.base + b.size;
    base_buffer::rotate(arena, b.base, b.size, b.held - end);
    mem_edit::rows::remove_rows(tables, b.at, width, b.used, header);
    left
}

// An open upload taken out, its pairs and its parts' data, in listed order, left after the last byte held.
fn take_upload(
    tables: &mut [u8],
    arena: &mut [u8],
    upload: u32,
    b: Bounds,
    list: &[u8],
    ascends: bool,
) -> Taken
    requires { (whole tables.old arena.old ≡ true)
        × Listed (state_of tables.old arena.old) upload (part_list list.now)
        × OfOpen tables.old arena.old upload
        (λ s x. (b ≡ bounds_of s upload x) × InOrder ascends list.now x.parts) }
    ensures { (k : Listed (state_of tables.old arena.old)
        upload (part_list list.now))
        → TakenOut tables.old arena.old upload list.now k
        tables.new arena.new result }
{
    let count = b.count as u16;
    let h = mem_layout::headers::read_header(tables);
    let header = Header {
        uploads: h.uploads - 1,
        parts: h.parts - count,
        ..h
    };
    let digest = mem_join_order::arrange(tables, arena, b.first, b.parts, list, ascends);
    let end = cut(tables, arena, b, header);
    Taken {
        digest,
        size: b.size,
        count,
        end,
    }
}

// An upload's parts joined into an object at the upload's path, with its start stamp and pairs of these lengths. Row and
// block stand in the place of the old object's, if there is one: taking the upload out moves no object.
fn join_with(
    tables: &mut [u8],
    arena: &mut [u8],
    upload: u32,
    b: Bounds,
    place: Lookup,
    list: &[u8],
    ascends: bool,
    path: &[u8],
    lengths: &[u8],
    stamp: u64,
)
    requires { JoinableWith tables.old arena.old upload b place list.now ascends path.now lengths.now stamp }
    ensures { (k : JoinableWith tables.old arena.old upload b place
        list.now ascends path.now lengths.now stamp)
        → Joins tables.old arena.old tables.new arena.new upload
        list.now k.at_path.joinable.listed }
{
    let taken = take_upload(tables, arena, upload, b, list, ascends);
    mem_edit::objects::move_object(
        tables,
        arena,
        place,
        taken.end,
        stamp,
        mem_layout::JOINED_KIND,
        taken.count,
        taken.digest,
        path,
        lengths,
        taken.size,
    );
}

// The same, with the lengths that stand in the upload's row: they wait in a local array.
fn join_at(
    tables: &mut [u8],
    arena: &mut [u8],
    upload: u32,
    b: Bounds,
    place: Lookup,
    list: &[u8],
    ascends: bool,
    path: &[u8],
    stamp: u64,
)
    requires { JoinableAt tables.old arena.old upload b place list.now ascends path.now stamp }
    ensures { (k : JoinableAt tables.old arena.old upload b place
        list.now ascends path.now stamp)
        → Joins tables.old arena.old tables.new arena.new upload
        list.now k.joinable.listed }
{
    let stored = mem_find::row_pairs::lengths(tables, b.at);
    let n = stored.len();
    let mut lengths = [0u8; 16];
    base_buffer::copy_at(&mut lengths, 0, stored);
    join_with(
        tables,
        arena,
        upload,
        b,
        place,
        list,
        ascends,
        path,
        &lengths[..n],
        stamp,
    );
}

// An open upload's parts, joined in listed order into an object at its path; the upload is gone. `b` are its bounds,
// `place` is what the lookup of its path answers, and `ascends` says that the list has its parts' numbers in their order.
pub fn join(
    tables: &mut [u8],
    arena: &mut [u8],
    upload: u32,
    b: Bounds,
    place: Lookup,
    list: &[u8],
    ascends: bool,
)
    requires { Joinable tables.old arena.old upload b place list.now ascends }
    ensures { (k : Joinable tables.old arena.old upload b place
        list.now ascends)
        → Joins tables.old arena.old tables.new arena.new upload
        list.now k.listed }
{
    let at = b.at;
    let h = mem_row::read_head(tables, at);
    let n = h.pathlen as usize;
    let from = at + mem_row::HEAD_LENGTH;
    let to = from + n;
    let mut path = [0u8; 128];
    base_buffer::copy_at(&mut path, 0, &tables[from..to]);
    join_at(
        tables,
        arena,
        upload,
        b,
        place,
        list,
        ascends,
        &path[..n],
        h.stamp,
    );
}
