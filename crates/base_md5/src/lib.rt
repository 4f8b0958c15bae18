// The MD5 message digest of RFC 1321.
#![tactic(auto)]

pub mod block;
pub mod words;

ghost use Rattle.std.specs.Prelude.{◌≡◌, ◌+◌, ◌-◌, ◌*◌, ◌%◌, ◌^◌, ◌<◌, ◌≤◌, ◌∷◌, ◌++◌, length, take, drop, replicate};
ghost use Rattle.base_number.specs.Number.{le};
ghost use Rattle.base_md5.specs.Md5.{md5, bytes_of, from_bytes};

use block::{blocks, sines};
use words::Digest;

// n bytes in bits, modulo 2^64.
fn bits(n: usize) -> u64
    ensures { result ≡ 8 * n % 2 ^ 64 }
{
    (n % 0x2000000000000000) as u64 * 8
}

// The last block or two: the data from start on, a byte 128, zeros, and at `at` the length in bits.
pub fn tail(data: &[u8], start: usize, at: usize) -> [u8; 128]
    requires { (start ≤ length «data».now) × (length «data».now - start < at) × (at ≤ 120) }
    ensures { take (at + 8) result ≡ drop start «data».now ++ 128
        ∷ (replicate (at - 1 - (length «data».now - start)) 0 ++ le 8 (8 * length «data».now % 2 ^ 64)) }
{
    let mut t = [0u8; 128];
    let left = data.len() - start;
    base_buffer::copy_at(&mut t, 0, &data[start..]);
    t[left] = 128;
    base_number::put_u64(&mut t, at, bits(data.len()));
    t
}

// The digest of data. Whole blocks are read where they stand; what is left after them is copied, at most 63 bytes.
pub fn digest(data: &[u8]) -> Digest
    ensures { result ≡ md5 «data».now }
{
    let n = data.len();
    let whole = n / 64;
    let t = sines();
    let v = blocks(Digest::initial(), data, whole, t);
    let start = whole * 64;
    if n - start < 56 {
        let last = tail(data, start, 56);
        blocks(v, &last, 1, t)
    } else {
        let last = tail(data, start, 120);
        blocks(v, &last, 2, t)
    }
}

// The sixteen bytes of v over those of b from `at` on; the rest of b is as it was.
pub fn put(b: &mut [u8], at: usize, v: Digest)
    requires { at + 16 ≤ length b.old }
    ensures { b.new ≡ take at b.old ++ bytes_of v ++ drop (at + 16) b.old }
{
    base_number::put_u32(b, at, v.a);
    base_number::put_u32(b, at + 4, v.b);
    base_number::put_u32(b, at + 8, v.c);
    base_number::put_u32(b, at + 12, v.d);
}

// The digest whose sixteen bytes stand in b from `at` on.
pub fn get(b: &[u8], at: usize) -> Digest
    requires { at + 16 ≤ length b.now }
    ensures { result ≡ from_bytes (take 16 (drop at b.now)) }
{
    Digest {
        a: base_number::get_u32(b, at),
        b: base_number::get_u32(b, at + 4),
        c: base_number::get_u32(b, at + 8),
        d: base_number::get_u32(b, at + 12),
    }
}
