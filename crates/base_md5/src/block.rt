// The compression of blocks of 64 bytes (RFC 1321, 3.4). A block's sixteen words are formed once; the 64 operations take words.
ghost use Rattle.std.specs.Prelude.{◌≡◌, ℕ, ◌+◌, ◌*◌, ◌<◌, ◌≤◌, List, length, slice_index};
ghost use Rattle.base_md5.specs.Md5.{rotl32, step, words_of, round, compress, chain};
ghost use Rattle.base_md5.specs.Md5 as rfc;

use super::words::Digest;

#[derive(Clone, Copy)]
pub enum Round {
    First,
    Second,
    Third,
    Fourth,
}

// Two numbers whose sum is F, G, H or I. `late` alone takes x, the word that the operation before has made.
#[derive(Clone, Copy)]
pub struct Summands {
    pub early: u32,
    pub late: u32,
}

// T[1] to T[64]. They are handed down as values: constants in the operations would be added last, where every operation waits for them.
pub fn sines() -> [u32; 64]
    ensures { result ≡ rfc.sines }
{
    [
        0xd76aa478, 0xe8c7b756, 0x242070db, 0xc1bdceee, 0xf57c0faf, 0x4787c62a, 0xa8304613,
        0xfd469501, 0x698098d8, 0x8b44f7af, 0xffff5bb1, 0x895cd7be, 0x6b901122, 0xfd987193,
        0xa679438e, 0x49b40821, 0xf61e2562, 0xc040b340, 0x265e5a51, 0xe9b6c7aa, 0xd62f105d,
        0x02441453, 0xd8a1e681, 0xe7d3fbc8, 0x21e1cde6, 0xc33707d6, 0xf4d50d87, 0x455a14ed,
        0xa9e3e905, 0xfcefa3f8, 0x676f02d9, 0x8d2a4c8a, 0xfffa3942, 0x8771f681, 0x6d9d6122,
        0xfde5380c, 0xa4beea44, 0x4bdecfa9, 0xf6bb4b60, 0xbebfbc70, 0x289b7ec6, 0xeaa127fa,
        0xd4ef3085, 0x04881d05, 0xd9d4d039, 0xe6db99e5, 0x1fa27cf8, 0xc4ac5665, 0xf4292244,
        0x432aff97, 0xab9423a7, 0xfc93a039, 0x655b59c3, 0x8f0ccc92, 0xffeff47d, 0x85845dd1,
        0x6fa87e4f, 0xfe2ce6e0, 0xa3014314, 0x4e0811a1, 0xf7537e82, 0xbd3af235, 0x2ad7d2bb,
        0xeb86d391,
    ]
}

// F, G, H or I.
fn auxiliary(r: Round, x: u32, y: u32, z: u32) -> Summands
    ensures { result.early + result.late ≡ rfc.auxiliary r x y z }
{
    match r {
        Round::First => Summands {
            early: 0,
            late: z ^ (x & (y ^ z)),
        },
        Round::Second => Summands {
            early: y & !z,
            late: x & z,
        },
        Round::Third => Summands {
            early: 0,
            late: x ^ y ^ z,
        },
        Round::Fourth => Summands {
            early: 0,
            late: y ^ (x | !z),
        },
    }
}

// One operation of a round, [abcd k s i] with x for X[k] and t for T[i].
fn operation(r: Round, v: Digest, x: [u32; 16], k: usize, s: u32, t: [u32; 64], i: usize) -> Digest
    requires { (k < 16) × (0 < s) × (s < 32) × (i < 64) }
    ensures { result ≡ step r (slice_index x k) s (slice_index t i) v }
{
    let f = auxiliary(r, v.b, v.c, v.d);
    let sum = v
        .a
        .wrapping_add(x[k])
        .wrapping_add(t[i])
        .wrapping_add(f.early)
        .wrapping_add(f.late);
    let b = v.b.wrapping_add(sum.rotate_left(s));
    Digest {
        a: v.d,
        b,
        c: v.b,
        d: v.c,
    }
}

// Four operations of a round, a line of its table: the words k, the shifts s, and T from place i on.
fn row(
    r: Round,
    v: Digest,
    x: [u32; 16],
    k: [usize; 4],
    s: [u32; 4],
    t: [u32; 64],
    i: usize,
) -> Digest
    requires words { (slice_index k 0 < 16) × (slice_index k 1 < 16) × (slice_index k 2 < 16) × (slice_index k 3 < 16) }
    requires shifts { (0 < slice_index s 0) × (slice_index s 0 < 32) × (0 < slice_index s 1) × (slice_index s 1 < 32)
        × (0 < slice_index s 2) × (slice_index s 2 < 32) × (0 < slice_index s 3) × (slice_index s 3 < 32) }
    requires i_bound { i < 61 }
    ensures { result ≡ step r (slice_index x (slice_index k 3)) (slice_index s 3) (slice_index t (i + 3))
        (step r (slice_index x (slice_index k 2)) (slice_index s 2) (slice_index t (i + 2))
        (step r (slice_index x (slice_index k 1)) (slice_index s 1) (slice_index t (i + 1))
        (step r (slice_index x (slice_index k 0)) (slice_index s 0) (slice_index t i) v))) }
{
    let v = operation(r, v, x, k[0], s[0], t, i);
    let v = operation(r, v, x, k[1], s[1], t, i + 1);
    let v = operation(r, v, x, k[2], s[2], t, i + 2);
    operation(r, v, x, k[3], s[3], t, i + 3)
}

// The sixteen words of the block m.
fn words(m: &[u8]) -> [u32; 16]
    requires { length m.now ≡ 64 }
    ensures { result ≡ words_of m.now }
{
    [
        base_number::get_u32(m, 0),
        base_number::get_u32(m, 4),
        base_number::get_u32(m, 8),
        base_number::get_u32(m, 12),
        base_number::get_u32(m, 16),
        base_number::get_u32(m, 20),
        base_number::get_u32(m, 24),
        base_number::get_u32(m, 28),
        base_number::get_u32(m, 32),
        base_number::get_u32(m, 36),
        base_number::get_u32(m, 40),
        base_number::get_u32(m, 44),
        base_number::get_u32(m, 48),
        base_number::get_u32(m, 52),
        base_number::get_u32(m, 56),
        base_number::get_u32(m, 60),
    ]
}

// The four rounds on the words x.
fn rounds(v: Digest, x: [u32; 16], t: [u32; 64]) -> Digest
    requires { t ≡ rfc.sines }
    ensures { (m : List ℕ) → x ≡ words_of m
        → result ≡ round Round.Fourth m (round Round.Third m (round Round.Second m (round Round.First m v))) }
{
    let v = row(Round::First, v, x, [0, 1, 2, 3], [7, 12, 17, 22], t, 0);
    let v = row(Round::First, v, x, [4, 5, 6, 7], [7, 12, 17, 22], t, 4);
    let v = row(Round::First, v, x, [8, 9, 10, 11], [7, 12, 17, 22], t, 8);
    let v = row(Round::First, v, x, [12, 13, 14, 15], [7, 12, 17, 22], t, 12);
    let v = row(Round::Second, v, x, [1, 6, 11, 0], [5, 9, 14, 20], t, 16);
    let v = row(Round::Second, v, x, [5, 10, 15, 4], [5, 9, 14, 20], t, 20);
    let v = row(Round::Second, v, x, [9, 14, 3, 8], [5, 9, 14, 20], t, 24);
    let v = row(Round::Second, v, x, [13, 2, 7, 12], [5, 9, 14, 20], t, 28);
    let v = row(Round::Third, v, x, [5, 8, 11, 14], [4, 11, 16, 23], t, 32);
    let v = row(Round::Third, v, x, [1, 4, 7, 10], [4, 11, 16, 23], t, 36);
    let v = row(Round::Third, v, x, [13, 0, 3, 6], [4, 11, 16, 23], t, 40);
    let v = row(Round::Third, v, x, [9, 12, 15, 2], [4, 11, 16, 23], t, 44);
    let v = row(Round::Fourth, v, x, [0, 7, 14, 5], [6, 10, 15, 21], t, 48);
    let v = row(Round::Fourth, v, x, [12, 3, 10, 1], [6, 10, 15, 21], t, 52);
    let v = row(Round::Fourth, v, x, [8, 15, 6, 13], [6, 10, 15, 21], t, 56);
    let v = row(Round::Fourth, v, x, [4, 11, 2, 9], [6, 10, 15, 21], t, 60);
    v
}

// The words after the block m.
fn block(v: Digest, m: &[u8], t: [u32; 64]) -> Digest
    requires { (length m.now ≡ 64) × (t ≡ rfc.sines) }
    ensures { result ≡ compress m.now v }
{
    let w = rounds(v, words(m), t);
    Digest {
        a: w.a.wrapping_add(v.a),
        b: w.b.wrapping_add(v.b),
        c: w.c.wrapping_add(v.c),
        d: w.d.wrapping_add(v.d),
    }
}

// The words after the first n blocks of m.
pub fn blocks(v0: Digest, m: &[u8], n: usize, t: [u32; 64]) -> Digest
    requires { (64 * n ≤ length m.now) × (t ≡ rfc.sines) }
    ensures { result ≡ chain v0 m.now n }
{
    let mut v = v0;
    for i in 0..n {
        v = block(v, &m[i * 64..i * 64 + 64], t);
    }
    v
}
