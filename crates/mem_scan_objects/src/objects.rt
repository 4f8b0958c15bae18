// The rows of objects, in memory that need not be whole.
ghost use Rattle.std.specs.Prelude.{◌≡◌, [], ◌+◌, ◌-◌, ◌*◌, ◌≤◌, length, take, drop};
ghost use Rattle.mem_layout.specs.Rules.{object_rule};
ghost use Rattle.mem_scan_objects.specs.Scan.{object_scan};

use crate::usual;
use mem_row::Head;
use mem_scan_rows::Offset;

// Whether the row of an object, with its path from `path` to `end` and its block at `base`, may stand after one whose path
// is `last`. Tests are in the order that takes the least time.
fn object_ok(
    most: u8,
    last: &[u8],
    h: Head,
    t: &[u8],
    path: usize,
    end: usize,
    arena: &[u8],
    base: usize,
) -> bool
    requires { (33 ≤ path) × (path ≤ end) × (end + 2 * h.pairs ≤ length t.now)
        × (base + h.size ≤ length arena.now) }
    ensures { result ≡ object_rule most last.now h (take (end - path) (drop path t.now))
        (take (2 * h.pairs) (drop end t.now)) (take h.size (drop base arena.now)) }
{
    if !mem_scan_rows::numbers_ok(h) {
        return false;
    }
    if !base_order::is_below(last, &t[path..end]) {
        return false;
    }
    if !names::stored_path_ok_at(t, path, end) {
        return false;
    }
    mem_scan_rows::pairs_ok_at(most, h, t, end, arena, base)
}

// Whether so many rows of objects stand from `from` on, after one whose path stands from `before` to there, and where they
// end. The path of the row passed stands from `last` to `last_end`.
fn scan_from(
    t: &[u8],
    arena: &[u8],
    from: Offset,
    before: usize,
    rows: u16,
    most: u8,
) -> Option<Offset>
    requires { (before ≤ from.at) × (from.at ≤ length t.now) × (from.base ≤ length arena.now) }
    ensures { result ≡ object_scan most rows (take (from.at - before) (drop before t.now)) from
        t.now arena.now }
{
    let mut at = from.at;
    let mut base = from.base;
    let mut last = before;
    let mut last_end = at;
    for i in 0..rows {
        let h = mem_scan_rows::read_row(t, at, arena, base)?;
        let path = at + mem_row::HEAD_LENGTH;
        let end = path + h.pathlen as usize;
        let next = end + 2 * h.pairs as usize;
        let data_end = base + h.size as usize;
        if !object_ok(most, &t[last..last_end], h, t, path, end, arena, base) {
            return None;
        }
        last = path;
        last_end = end;
        at = next;
        base = data_end;
    }
    Some(Offset { at, base })
}

// Whether the rows of objects stand from `from` on, and where they end: the usual ones first, and all from the first other
// one on by `scan_from`. The path of the row passed stands from `last` to `at`.
pub fn scan_objects(t: &[u8], arena: &[u8], from: Offset, rows: u16, most: u8) -> Option<Offset>
    requires { (from.at ≤ length t.now) × (from.base ≤ length arena.now) }
    ensures { result ≡ object_scan most rows [] from t.now arena.now }
{
    let mut at = from.at;
    let mut base = from.base;
    let mut last = at;
    for i in 0..rows {
        let Some(h) = usual::read_usual(t, at, arena, base) else {
            return scan_from(t, arena, Offset { at, base }, last, rows - i, most);
        };
        let path = at + mem_row::HEAD_LENGTH;
        let end = path + h.pathlen as usize;
        if !usual::usual_ok(&t[last..at], h, t, path, end) {
            return scan_from(t, arena, Offset { at, base }, last, rows - i, most);
        }
        last = path;
        at = end;
        base += h.size as usize;
    }
    Some(Offset { at, base })
}
