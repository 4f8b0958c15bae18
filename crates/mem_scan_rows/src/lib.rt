// One row, in memory that need not be whole, and where rows stand.
#![tactic(auto)]

ghost use Rattle.std.specs.Prelude.{◌≡◌, true, ◌&&◌, cond, List, ℕ, ◌+◌, ◌*◌, ◌≤◌, eqb, length, take, drop, IfSome};
ghost use Rattle.mem_row.specs.Row.{span};
ghost use Rattle.base_order.specs.Order.{is_below};
ghost use Rattle.machine.specs.Names.{stored_path_ok};
ghost use Rattle.mem_layout.specs.Rules.{plain_kind, parts_most, pairs_rule, object_rule};
ghost use Rattle.mem_scan_rows.specs.Scan.{reading_of};

use mem_row::Head;

// Where a row stands in the tables, and its data in the arena.
#[derive(Clone, Copy)]
pub struct Offset {
    pub at: usize,
    pub base: usize,
}

// The head of the row at `at`, with its data at `base`, where the row is all in t and its data all in the arena.
pub fn read_row(t: &[u8], at: usize, arena: &[u8], base: usize) -> Option<Head>
    requires { (at ≤ length t.now) × (base ≤ length arena.now) }
    ensures reading { result ≡ reading_of (drop at t.now) (drop base arena.now) }
    ensures inside { IfSome result (λ h. (at + span h ≤ length t.now) × (base + h.size ≤ length arena.now)) }
{
    let left = t.len() - at;
    if left < mem_row::HEAD_LENGTH {
        return None;
    }
    let h = mem_row::read_head(t, at);
    if left < mem_row::span(h) {
        return None;
    }
    if arena.len() - base < h.size as usize {
        return None;
    }
    Some(h)
}

// The most parts that an etag of this kind can count.
#[tactic(auto, using(machine::proofs::Tests::tests))]
fn most_parts(kind: u8) -> u16
    ensures { result ≡ cond (eqb kind plain_kind) 0 parts_most }
{
    if kind == mem_layout::PLAIN_KIND {
        0
    } else {
        mem_layout::PARTS_MOST as u16
    }
}

// Whether a row with these numbers may be an object's. Most objects count no parts.
pub fn numbers_ok(h: Head) -> bool
    ensures { (most : ℕ) (last path lengths content : List ℕ) → object_rule most last h path lengths content
        ≡ (result && (stored_path_ok path && (is_below last path && pairs_rule most h lengths content))) }
{
    if mem_layout::JOINED_KIND < h.kind {
        return false;
    }
    if h.count != 0 {
        if most_parts(h.kind) < h.count {
            return false;
        }
    }
    if h.number != 0 {
        return false;
    }
    1 <= h.stamp
}

// Whether a row may have its pairs, by a layout whose rows have at most `most`: its block begins with them.
#[tactic(auto, using(machine::proofs::Tests::tests), unfolding(mem_layout::specs::Rules::pairs_rule))]
pub fn pairs_ok(most: u8, h: Head, lengths: &[u8], content: &[u8]) -> bool
    ensures rule { result ≡ pairs_rule most h lengths.now content.now }
    ensures few { result ≡ true → length lengths.now ≤ 16 }
{
    h.pairs <= most && pairs_stored::block_ok(lengths, content)
}

// The same of a row whose lengths stand at `at` and its block at `base`.
pub fn pairs_ok_at(most: u8, h: Head, t: &[u8], at: usize, arena: &[u8], base: usize) -> bool
    requires { (at + 2 * h.pairs ≤ length t.now) × (base + h.size ≤ length arena.now) }
    ensures { result ≡ pairs_rule most h (take (2 * h.pairs) (drop at t.now))
        (take h.size (drop base arena.now)) }
{
    if h.pairs == 0 {
        return true;
    }
    let end = at + 2 * h.pairs as usize;
    let data_end = base + h.size as usize;
    pairs_ok(most, h, &t[at..end], &arena[base..data_end])
}
