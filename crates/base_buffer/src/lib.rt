// Bytes copied, moved and exchanged within a buffer: each change is an equation of lists.
#![tactic(auto)]

mod blocks;

ghost use Rattle.std.specs.Prelude.{◌≡◌, ◌⊎◌, ◌+◌, ◌-◌, ◌≤◌, ◌<◌, [], length, take, drop};
ghost use Rattle.base_number.specs.Number.{replaced_at, written};
ghost use Rattle.base_buffer.specs.Buffer.{spliced, rotated};

// src over dst from `at` on; the rest of dst is as it was.
pub fn copy_at(dst: &mut [u8], at: usize, src: &[u8])
    requires { at + length src.now ≤ length dst.old }
    ensures { dst.new ≡ written dst.old at src.now }
{
    dst[at..at + src.len()].copy_from_slice(src);
}

// The most bytes that are moved at a time.
const BLOCK: usize = 8192;

// The n bytes from `from` on, over those from `to` on, by way of a copy. The compiler makes one memmove of it, with no copy.
fn move_block(b: &mut [u8], from: usize, to: usize, n: usize)
    requires { (n ≤ 8192) × (from + n ≤ length b.old) × (to + n ≤ length b.old) }
    ensures { b.new ≡ replaced_at b.old to (take n (drop from b.old)) n }
{
    let mut held = [0u8; BLOCK];
    copy_at(&mut held, 0, &b[from..from + n]);
    copy_at(b, to, &held[..n]);
}

// The n bytes from `from` on, moved left to `to`: the lowest first, so that none is written over before it is read.
fn move_left(b: &mut [u8], from: usize, to: usize, n: usize)
    requires { (to ≤ from) × (from + n ≤ length b.old) }
    ensures { b.new ≡ replaced_at b.old to (take n (drop from b.old)) n }
{
    let mut i = 0;
    while i < n {
        let k = BLOCK.min(n - i);
        move_block(b, from + i, to + i, k);
        i += k;
    }
}

// The same to the right: the highest first.
fn move_right(b: &mut [u8], from: usize, to: usize, n: usize)
    requires { (from ≤ to) × (to + n ≤ length b.old) }
    ensures { b.new ≡ replaced_at b.old to (take n (drop from b.old)) n }
{
    let mut i = n;
    while 0 < i {
        let k = BLOCK.min(i);
        i -= k;
        move_block(b, from + i, to + i, k);
    }
}

// The n bytes from `from` on, over those from `to` on, as C's memmove. Where they stand there already, it does nothing.
pub fn copy_within(b: &mut [u8], from: usize, to: usize, n: usize)
    requires { (from + n ≤ length b.old) × (to + n ≤ length b.old) }
    ensures { b.new ≡ replaced_at b.old to (take n (drop from b.old)) n }
{
    if to < from {
        move_left(b, from, to, n);
    } else if from < to {
        move_right(b, from, to, n);
    }
}

// The n bytes at `at` give way to src, and those after them up to `used` move to follow it. With n = 0 it inserts, with
// an empty src it removes, and with a src of n bytes nothing moves.
pub fn splice(b: &mut [u8], at: usize, n: usize, used: usize, src: &[u8])
    requires { (at + n ≤ used) × ((used ≤ length b.old) × (used + length src.now ≤ length b.old + n)) }
    ensures { b.new ≡ spliced b.old at n used src.now }
{
    let m = src.len();
    copy_within(b, at + n, at + m, used - (at + n));
    copy_at(b, at, src);
}

// The n bytes at `at` give way to a copy of the m bytes at `from`, which stand before or after them, and those after
// them up to `used` move to follow it.
pub fn splice_within(b: &mut [u8], at: usize, n: usize, used: usize, from: usize, m: usize)
    requires { (at + n ≤ used) × (used ≤ length b.old) × (used + m ≤ length b.old + n) × (from + m ≤ used)
        × ((from + m ≤ at) ⊎ (at + n ≤ from)) }
    ensures { b.new ≡ spliced b.old at n used (take m (drop from b.old)) }
{
    let end = at + n;
    copy_within(b, end, at + m, used - end);
    if from + m <= at {
        copy_within(b, from, at, m);
    } else {
        copy_within(b, from + m - n, at, m);
    }
}

// The n bytes at `at` are removed: a splice of no bytes.
pub fn remove(b: &mut [u8], at: usize, n: usize, used: usize)
    requires { (at + n ≤ used) × (used ≤ length b.old) }
    ensures { b.new ≡ spliced b.old at n used [] }
{
    copy_within(b, at + n, at, used - (at + n));
}

// The left bytes from `at` on and the right bytes after them, exchanged in place. Each turn swaps the shorter block
// with the far end of the longer one, which brings it to its place; what is left is the same question for a shorter
// pair of blocks.
pub fn rotate(b: &mut [u8], at: usize, left: usize, right: usize)
    requires { at + left + right ≤ length b.old }
    ensures { b.new ≡ rotated b.old at left right }
{
    let mut from = at;
    let mut l = left;
    let mut r = right;
    while blocks::SMALL < l {
        if r <= blocks::SMALL {
            if 0 < r {
                blocks::rotate_small_right(b, from, l, r);
            }
            return;
        }
        if l <= r {
            blocks::swap(b, from, from + r, l);
            r -= l;
        } else {
            blocks::swap(b, from, from + l, r);
            from += r;
            l -= r;
        }
    }
    if 0 < l && 0 < r {
        blocks::rotate_small_left(b, from, l, r);
    }
}
