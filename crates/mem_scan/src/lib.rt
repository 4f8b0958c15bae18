// The test "whole", over any bytes.
#![tactic(auto)]

mod entries;

ghost use Rattle.std.specs.Prelude.{◌≡◌, false, cond, ◌≤◌, length, IfSome, IfNone};
ghost use Rattle.mem_scan.specs.Scan.{upload_scan, front_ok};
ghost use Rattle.mem_scan.specs.Scanned.{uploads_from, offsets_in, Scanned};
ghost use Rattle.mem_layout.specs.Header.{header_length};
ghost use Rattle.mem_layout.specs.Memory as memory;

use mem_layout::headers;
use mem_scan_objects::objects;
use mem_scan_rows::Offset;

// Where the rows of uploads begin, and where all rows end.
#[derive(Clone, Copy)]
pub struct Offsets {
    pub uploads: Offset,
    pub end: Offset,
}

// Where the rows of uploads begin, if header and objects stand in a layout whose tables have `length` bytes and whose rows have at
// most `most` pairs.
fn scan_front(tables: &[u8], arena: &[u8], length: usize, most: u8) -> Option<Offset>
    requires { header_length ≤ length }
    ensures { result ≡ cond (front_ok length most tables.now arena.now)
        (Some (uploads_from tables.now)) None }
{
    if tables.len() < mem_layout::HEADER_LENGTH {
        return None;
    }
    let h = headers::read_header(tables);
    if !headers::header_ok(h, length, tables.len(), arena.len()) {
        return None;
    }
    let from = Offset {
        at: mem_layout::HEADER_LENGTH,
        base: 0,
    };
    objects::scan_objects(tables, arena, from, h.objects, most)
}

// Where all rows end, if those of uploads and parts stand from `uploads` on as the header says.
fn scan_uploads(tables: &[u8], arena: &[u8], uploads: Offset, most: u8) -> Option<Offset>
    requires { (header_length ≤ length tables.now) × (uploads.at ≤ length tables.now)
        × (uploads.base ≤ length arena.now) }
    ensures { result ≡ upload_scan most uploads tables.now arena.now }
{
    let h = headers::read_header(tables);
    entries::scan_entries(tables, arena, uploads, h.uploads, h.parts, h.next, most)
}

// The test "whole" of a layout whose tables have `length` bytes and whose rows have at most `most` pairs.
pub fn whole_of(tables: &[u8], arena: &[u8], length: usize, most: u8) -> bool
    requires { header_length ≤ length }
    ensures { result ≡ memory.whole_of length most tables.now arena.now }
{
    let Some(uploads) = scan_front(tables, arena, length, most) else {
        return false;
    };
    scan_uploads(tables, arena, uploads, most).is_some()
}

// The test "whole"; of whole memory, where the rows stand.
pub fn scan_store(tables: &[u8], arena: &[u8]) -> Option<Offsets>
    ensures found { result ≡ cond (memory.whole tables.now arena.now)
        (Some (offsets_in tables.now)) None }
    ensures whole { IfSome result (λ o. Scanned tables.now arena.now o) }
    ensures not_whole { IfNone result (memory.whole tables.now arena.now ≡ false) }
{
    let most = pairs::PAIRS_MOST as u8;
    let uploads = scan_front(tables, arena, mem_layout::TABLES_LENGTH, most)?;
    let end = scan_uploads(tables, arena, uploads, most)?;
    Some(Offsets { uploads, end })
}

// The test "whole".
pub fn whole(tables: &[u8], arena: &[u8]) -> bool
    ensures { result ≡ memory.whole tables.now arena.now }
{
    scan_store(tables, arena).is_some()
}
