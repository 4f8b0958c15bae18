// The rows of uploads and parts, in memory that need not be whole.
ghost use Rattle.std.specs.Prelude.{◌≡◌, true, ℕ, ◌+◌, ◌-◌, ◌≤◌, length, drop, IfSome};
ghost use Rattle.mem_row.specs.Row.{head_length};
ghost use Rattle.base_order.specs.Order.{same};
ghost use Rattle.mem_layout.specs.Rules.{entry_rule, no_digest, upload_rule, part_rule, mark_after, start};
ghost use Rattle.mem_scan_rows.specs.Scan.{reading_of};
ghost use Rattle.mem_scan.specs.Scan.{opens_one, entry_scan};
ghost use Rattle.mem_row.specs.declared.Head.{Head};

use mem_layout::Mark;
use mem_row::Head;
use mem_scan_rows::Offset;

// Where a run of parts ends: the number of the next row, its offset, and the mark after the parts.
#[derive(Clone, Copy)]
struct Run {
    row: usize,
    end: Offset,
    m: Mark,
}

// Whether 16 bytes are 0.
fn is_zero(d: &[u8]) -> bool
    requires { length d.now ≡ 16 }
    ensures { result ≡ same d.now no_digest }
{
    base_number::get_u64(d, 0) == 0 && base_number::get_u64(d, 8) == 0
}

// Whether the row of an upload may stand after m, where `next` is the number of the next upload.
#[tactic(auto, using(machine::proofs::Tests::tests), unfolding(mem_layout::specs::Rules::all, mem_layout::specs::Rules::upload_rule))]
fn upload_ok(
    most: u8,
    next: u64,
    m: Mark,
    h: Head,
    digest: &[u8],
    path: &[u8],
    lengths: &[u8],
    content: &[u8],
) -> bool
    requires { length digest.now ≡ 16 }
    ensures { result ≡ upload_rule most next m h digest.now path.now lengths.now
        content.now }
{
    h.count == 0
        && 1 <= h.stamp
        && m.upload < h.number
        && (h.number as u64) < next
        && names::stored_path_ok(path)
        && is_zero(digest)
        && mem_scan_rows::pairs_ok(most, h, lengths, content)
        && h.size as usize == pairs_stored::sum_of(lengths)
}

// Whether the row of a part may stand after m.
#[tactic(auto, using(machine::proofs::Tests::tests), unfolding(mem_layout::specs::Rules::all, mem_layout::specs::Rules::part_rule))]
fn part_ok(m: Mark, h: Head) -> bool
    ensures { result ≡ part_rule m h }
{
    h.kind == mem_layout::PART_KIND
        && h.stamp == 0
        && h.count == 0
        && h.pathlen == 0
        && h.pairs == 0
        && 1 <= m.upload
        && m.part < h.number
        && names::stored_part_ok(h.number)
}

// Whether the row of an upload or a part may stand after m.
#[tactic(auto, using(machine::proofs::Tests::tests), unfolding(mem_layout::specs::Rules::entry_rule))]
fn entry_ok(
    most: u8,
    next: u64,
    m: Mark,
    h: Head,
    digest: &[u8],
    path: &[u8],
    lengths: &[u8],
    content: &[u8],
) -> bool
    requires { length digest.now ≡ 16 }
    ensures { result ≡ entry_rule most next m h digest.now path.now lengths.now
        content.now }
{
    if h.kind == mem_layout::UPLOAD_KIND {
        upload_ok(most, next, m, h, digest, path, lengths, content)
    } else {
        part_ok(m, h)
    }
}

// 1 for the row of an upload.
#[tactic(auto, using(machine::proofs::Tests::tests), unfolding(crate::specs::Scan::opens_one))]
fn opening(h: Head) -> usize
    ensures { result ≡ opens_one h }
{
    if h.kind == mem_layout::UPLOAD_KIND {
        1
    } else {
        0
    }
}

// The mark after a row with head h.
#[tactic(auto, using(machine::proofs::Tests::tests), unfolding(mem_layout::specs::Rules::mark_after))]
fn mark_after(m: Mark, h: Head) -> Mark
    ensures { result ≡ mark_after m h }
{
    if h.kind == mem_layout::UPLOAD_KIND {
        Mark {
            upload: h.number,
            part: 0,
        }
    } else {
        Mark {
            upload: m.upload,
            part: h.number,
        }
    }
}

// The head of the row at `at`, with its data at `base`, where it is a part's that fits and may stand after m. `None`
// says nothing of the row.
fn read_part(t: &[u8], at: usize, arena: &[u8], base: usize, m: Mark) -> Option<Head>
    requires { (at ≤ length t.now) × (base ≤ length arena.now) }
    ensures part { IfSome result (λ h. (reading_of (drop at t.now) (drop base arena.now) ≡ Some h) × (part_rule m h ≡ true)) }
    ensures inside { IfSome result (λ h. (at + head_length ≤ length t.now) × (base + h.size ≤ length arena.now)) }
{
    if t.len() - at < mem_row::HEAD_LENGTH {
        return None;
    }
    let h = mem_row::read_head(t, at);
    if !part_ok(m, h) {
        return None;
    }
    if arena.len() - base < h.size as usize {
        return None;
    }
    Some(h)
}

// Passes the parts that may stand after m, from row `first` at `from` on, and stops at any other of the `rows` rows: that
// one is the caller's to judge. A part has no path and no pairs, so where the next row begins does not depend on what is
// read.
fn pass_parts(t: &[u8], arena: &[u8], from: Offset, m: Mark, first: usize, rows: usize) -> Run
    requires { (from.at ≤ length t.now) × (from.base ≤ length arena.now) × (first ≤ rows) }
    ensures { (first ≤ result.row)
        × (result.row ≤ rows)
        × (result.end.at ≤ length t.now)
        × (result.end.base ≤ length arena.now)
        × ((most next uploads opened : ℕ)
        → entry_scan most next uploads opened (rows - first) m from t.now arena.now
        ≡ entry_scan most next uploads opened (rows - result.row) result.m result.end t.now arena.now) }
{
    let mut at = from.at;
    let mut base = from.base;
    let mut after = m;
    for i in first..rows {
        let Some(h) = read_part(t, at, arena, base, after) else {
            return Run {
                row: i,
                end: Offset { at, base },
                m: after,
            };
        };
        after = mark_after(after, h);
        at += mem_row::HEAD_LENGTH;
        base += h.size as usize;
    }
    Run {
        row: rows,
        end: Offset { at, base },
        m: after,
    }
}

// Whether the rows of uploads and parts stand from `from` on, just so many of each, and where they end.
pub(crate) fn scan_entries(
    t: &[u8],
    arena: &[u8],
    from: Offset,
    uploads: u16,
    parts: u16,
    next: u64,
    most: u8,
) -> Option<Offset>
    requires { (from.at ≤ length t.now) × (from.base ≤ length arena.now) }
    ensures { result ≡ entry_scan most next uploads 0 (uploads + parts) start from t.now
        arena.now }
{
    let rows = uploads as usize + parts as usize;
    let mut at = from.at;
    let mut base = from.base;
    let mut m = Mark { upload: 0, part: 0 };
    let mut opened: usize = 0;
    let mut i: usize = 0;
    while i < rows {
        let h = mem_scan_rows::read_row(t, at, arena, base)?;
        let digest = at + mem_row::NUMBERS_LENGTH;
        let path = at + mem_row::HEAD_LENGTH;
        let end = path + h.pathlen as usize;
        let after = end + 2 * h.pairs as usize;
        let data_end = base + h.size as usize;
        if !entry_ok(
            most,
            next,
            m,
            h,
            &t[digest..path],
            &t[path..end],
            &t[end..after],
            &arena[base..data_end],
        ) {
            return None;
        }
        opened += opening(h);
        let next_row = Offset {
            at: after,
            base: data_end,
        };
        let run = pass_parts(t, arena, next_row, mark_after(m, h), i + 1, rows);
        at = run.end.at;
        base = run.end.base;
        m = run.m;
        i = run.row;
    }
    if opened != uploads as usize {
        return None;
    }
    Some(Offset { at, base })
}
