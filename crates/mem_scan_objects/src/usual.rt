// The usual row of an object: it has no pairs, and its path is 1 to 32 bytes of visible ASCII. What is asked here only
// accepts such a row; of any other it says nothing.
ghost use Rattle.std.specs.Prelude.{◌≡◌, true, List, ℕ, ◌+◌, ◌-◌, ◌*◌, ◌≤◌, length, take, drop, IfSome};
ghost use Rattle.mem_row.specs.Row.{span};
ghost use Rattle.mem_row.specs.declared.Head.{Head};
ghost use Rattle.mem_layout.specs.Rules.{object_rule};
ghost use Rattle.mem_scan_rows.specs.Scan.{reading_of};

use mem_row::Head;

// The head of the row at `at`, with its data at `base`, where it has no pairs, is all in t, and its data all in the arena.
// `None` says nothing of the row.
pub(crate) fn read_usual(t: &[u8], at: usize, arena: &[u8], base: usize) -> Option<Head>
    requires { (at ≤ length t.now) × (base ≤ length arena.now) }
    ensures usual { IfSome result (λ h. (reading_of (drop at t.now) (drop base arena.now) ≡ Some h) × (h.pairs ≡ 0)) }
    ensures inside { IfSome result (λ h. (at + span h ≤ length t.now) × (base + h.size ≤ length arena.now)) }
{
    let path = at + mem_row::HEAD_LENGTH;
    if t.len() < path {
        return None;
    }
    let h = mem_row::read_head(t, at);
    if h.pairs != 0 {
        return None;
    }
    if t.len() < path + h.pathlen as usize {
        return None;
    }
    if arena.len() < base + h.size as usize {
        return None;
    }
    Some(h)
}

// Whether the row of an object without pairs, with its path from `path` to `end`, may stand after one whose path is `last`.
// `false` says nothing of the row.
pub(crate) fn usual_ok(last: &[u8], h: Head, t: &[u8], path: usize, end: usize) -> bool
    requires { (33 ≤ path) × (path ≤ end) × (end ≤ length t.now) }
    ensures { result ≡ true → h.pairs ≡ 0 → (most : ℕ) (content : List ℕ)
        → object_rule most last.now h (take (end - path) (drop path t.now))
        (take (2 * h.pairs) (drop end t.now)) content ≡ true }
{
    if !mem_scan_rows::numbers_ok(h) {
        return false;
    }
    if !base_order::is_below(last, &t[path..end]) {
        return false;
    }
    names::short_path_ok_at(t, path, end)
}
