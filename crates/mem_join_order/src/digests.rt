// The digest of the parts' digests.
ghost use Rattle.std.specs.Prelude.{◌≡◌, ◌*◌, ◌≤◌, length, take};
ghost use Rattle.base_md5.specs.Md5.{md5};
ghost use Rattle.machine.specs.Steps.{digests};
ghost use Rattle.mem_layout.specs.Rules.{parts_most};
ghost use Rattle.mem_join_order.specs.Digests.{OrderedAt};

use base_md5::words::Digest;

// The digests in the rows of `count` parts at `at`, set end to end at the front of `all`.
fn gather(tables: &[u8], at: usize, count: usize, all: &mut [u8])
    requires { OrderedAt tables.now at count × (16 * count ≤ length all.old) }
    ensures { (k : OrderedAt tables.now at count)
        → take (16 * count) all.new ≡ digests k.listed }
{
    for i in 0..count {
        let from = at + mem_row::HEAD_LENGTH * i + mem_row::NUMBERS_LENGTH;
        let to = from + 16;
        base_buffer::copy_at(all, 16 * i, &tables[from..to]);
    }
}

// The digest of the digests in the rows of `count` parts at `at`.
pub fn joined_digest(tables: &[u8], at: usize, count: usize) -> Digest
    requires { OrderedAt tables.now at count × (count ≤ parts_most) }
    ensures { (k : OrderedAt tables.now at count) → result ≡ md5 (digests k.listed) }
{
    let mut all = [0u8; 4096];
    gather(tables, at, count, &mut all);
    let n = 16 * count;
    base_md5::digest(&all[..n])
}
