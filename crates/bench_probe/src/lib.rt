// The functions that bench/ measures, exported for C. Each answers 0, or 1 where its arguments do not fit, and then changes nothing.
#![tactic(auto)]

ghost use Rattle.std.specs.Prelude.{◌≡◌, ◌+◌, ◌-◌, ◌&&◌, ◌++◌, eqb, leb, length, take, drop};
ghost use Rattle.base_buffer.specs.Buffer.{spliced, rotated};
ghost use Rattle.base_md5.specs.Md5.{bytes_of};
ghost use Rattle.base_md5.specs.DigestBytes.{digest_bytes};
ghost use Rattle.base_order.specs.Order.{by_bytes};
ghost use Rattle.base_order.specs.Compared.{order_of};
ghost use Rattle.bench_probe.specs.Probe.{answer, changed, PutsADigest, place};

use base_md5::words::Digest;
use std::cmp::Ordering;

// Whether n bytes at `at` stand within len.
fn fits(at: usize, n: usize, len: usize) -> bool
    ensures { result ≡ leb (at + n) len }
{
    if len < at {
        return false;
    }
    if len - at < n {
        return false;
    }
    true
}

#[unsafe(no_mangle)]
pub extern "C" fn probe_copy_within(b: &mut [u8], from: usize, to: usize, n: usize) -> u32
    ensures { (result ≡ answer (leb (from + n) (length b.old) && leb (to + n) (length b.old)))
        × (b.new ≡ changed result b.old (take to b.old ++ take n (drop from b.old) ++ drop (to + n) b.old)) }
{
    if !fits(from, n, b.len()) {
        return 1;
    }
    if !fits(to, n, b.len()) {
        return 1;
    }
    base_buffer::copy_within(b, from, to, n);
    0
}

#[unsafe(no_mangle)]
pub extern "C" fn probe_splice(b: &mut [u8], at: usize, n: usize, used: usize, src: &[u8]) -> u32
    ensures { (result ≡ answer (leb (at + n) used && (leb used (length b.old) && leb (used - n + length src.now) (length b.old))))
        × (b.new ≡ changed result b.old (spliced b.old at n used src.now)) }
{
    if !fits(at, n, used) {
        return 1;
    }
    if b.len() < used {
        return 1;
    }
    if !fits(used - n, src.len(), b.len()) {
        return 1;
    }
    base_buffer::splice(b, at, n, used, src);
    0
}

#[unsafe(no_mangle)]
pub extern "C" fn probe_rotate(b: &mut [u8], at: usize, left: usize, right: usize) -> u32
    ensures { (result ≡ answer (leb (at + left) (length b.old) && leb (at + left + right) (length b.old)))
        × (b.new ≡ changed result b.old (rotated b.old at left right)) }
{
    if !fits(at, left, b.len()) {
        return 1;
    }
    if !fits(at + left, right, b.len()) {
        return 1;
    }
    base_buffer::rotate(b, at, left, right);
    0
}

// The sixteen bytes of v over out.
fn put_digest(v: Digest, out: &mut [u8]) -> u32
    ensures { (result ≡ answer (eqb (length out.old) 16))
        × (out.new ≡ changed result out.old (bytes_of v)) }
{
    let unfit = out.len() != 16;
    if unfit {
        return 1;
    }
    base_md5::put(out, 0, v);
    0
}

#[unsafe(no_mangle)]
pub extern "C" fn probe_digest(data: &[u8], out: &mut [u8]) -> u32
    ensures { (result ≡ answer (eqb (length out.old) 16))
        × (out.new ≡ changed result out.old (digest_bytes «data».now)) }
{
    put_digest(base_md5::digest(data), out)
}

// The digest as it was before, whose steps read bytes. Which digest it is, is not promised: crate `test_vectors` tests it.
#[unsafe(no_mangle)]
pub extern "C" fn probe_digest_bytes(data: &[u8], out: &mut [u8]) -> u32
    ensures { (result ≡ answer (eqb (length out.old) 16))
        × PutsADigest result out.old out.new }
{
    put_digest(bench_md5_bytes::digest(data), out)
}

// 0 where a is first, 1 where a and b are the same, 2 where b is first.
#[unsafe(no_mangle)]
pub extern "C" fn probe_compare(a: &[u8], b: &[u8]) -> u32
    ensures { result ≡ place (order_of (by_bytes a.now b.now)) }
{
    let o = base_order::compare(a, b);
    match o {
        Ordering::Less => 0,
        Ordering::Equal => 1,
        Ordering::Greater => 2,
    }
}
