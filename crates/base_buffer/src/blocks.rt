// The steps of a rotation.
ghost use Rattle.std.specs.Prelude.{◌≡◌, ◌+◌, ◌≤◌, length, drop};
ghost use Rattle.std.proofs.Math.Seq.{paste};
ghost use Rattle.base_buffer.specs.Buffer.{rotated};

// The n bytes from i on and the n from j on, exchanged.
pub(crate) fn swap(b: &mut [u8], i: usize, j: usize, n: usize)
    requires { (i + n ≤ j) × (j + n ≤ length b.old) }
    ensures { b.new
        ≡ paste (paste b.old i (drop j b.old) n) j (drop i b.old) n }
{
    let (left, right) = b.split_at_mut(j);
    left[i..i + n].swap_with_slice(&mut right[..n]);
}

// The largest block that is exchanged through a local copy.
pub(crate) const SMALL: usize = 1024;

// A rotation whose left block is small.
pub(crate) fn rotate_small_left(b: &mut [u8], at: usize, l: usize, r: usize)
    requires { (l ≤ 1024) × (at + l + r ≤ length b.old) }
    ensures { b.new ≡ rotated b.old at l r }
{
    let mut held = [0u8; SMALL];
    crate::copy_at(&mut held, 0, &b[at..at + l]);
    crate::copy_within(b, at + l, at, r);
    crate::copy_at(b, at + r, &held[..l]);
}

// A rotation whose right block is small.
pub(crate) fn rotate_small_right(b: &mut [u8], at: usize, l: usize, r: usize)
    requires { (r ≤ 1024) × (at + l + r ≤ length b.old) }
    ensures { b.new ≡ rotated b.old at l r }
{
    let mut held = [0u8; SMALL];
    crate::copy_at(&mut held, 0, &b[at + l..at + l + r]);
    crate::copy_within(b, at, at + r, l);
    crate::copy_at(b, at, &held[..r]);
}
