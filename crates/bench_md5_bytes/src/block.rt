// The compression of blocks of 64 bytes (RFC 1321, 3.4), where each step reads its word from the bytes. Proved to be safe and to end.
// A round is written in halves, so that no proof has to be written.
ghost use Rattle.std.specs.Prelude.{◌≡◌, ◌+◌, ◌*◌, ◌<◌, ◌≤◌, length};

use base_md5::block::Round;
use base_md5::words::Digest;

// F, G, H or I.
fn auxiliary(r: Round, x: u32, y: u32, z: u32) -> u32 {
    match r {
        Round::First => (x & y) | (!x & z),
        Round::Second => (x & z) | (y & !z),
        Round::Third => x ^ y ^ z,
        Round::Fourth => y ^ (x | !z),
    }
}

// x <<< s
fn rotl(x: u32, s: u32) -> u32
    requires { (0 < s) × (s < 32) }
{
    (x << s) | (x >> (32 - s))
}

// One operation of a round, [abcd k s i] with t for T[i].
fn operation(r: Round, v: Digest, x: &[u8], k: usize, s: u32, t: u32) -> Digest
    requires { (length x.now ≡ 64) × (k < 16) × (0 < s) × (s < 32) }
{
    let f = auxiliary(r, v.b, v.c, v.d);
    let p = std::num::wrapping_add_u32(v.a, f);
    let q = std::num::wrapping_add_u32(p, base_number::get_u32(x, k * 4));
    let w = std::num::wrapping_add_u32(q, t);
    let b = std::num::wrapping_add_u32(v.b, rotl(w, s));
    Digest {
        a: v.d,
        b: b,
        c: v.b,
        d: v.c,
    }
}

fn first_round_begun(v: Digest, x: &[u8]) -> Digest
    requires { length x.now ≡ 64 }
{
    let v = operation(Round::First, v, x, 0, 7, 0xd76aa478);
    let v = operation(Round::First, v, x, 1, 12, 0xe8c7b756);
    let v = operation(Round::First, v, x, 2, 17, 0x242070db);
    let v = operation(Round::First, v, x, 3, 22, 0xc1bdceee);
    let v = operation(Round::First, v, x, 4, 7, 0xf57c0faf);
    let v = operation(Round::First, v, x, 5, 12, 0x4787c62a);
    let v = operation(Round::First, v, x, 6, 17, 0xa8304613);
    let v = operation(Round::First, v, x, 7, 22, 0xfd469501);
    v
}

fn first_round_ended(v: Digest, x: &[u8]) -> Digest
    requires { length x.now ≡ 64 }
{
    let v = operation(Round::First, v, x, 8, 7, 0x698098d8);
    let v = operation(Round::First, v, x, 9, 12, 0x8b44f7af);
    let v = operation(Round::First, v, x, 10, 17, 0xffff5bb1);
    let v = operation(Round::First, v, x, 11, 22, 0x895cd7be);
    let v = operation(Round::First, v, x, 12, 7, 0x6b901122);
    let v = operation(Round::First, v, x, 13, 12, 0xfd987193);
    let v = operation(Round::First, v, x, 14, 17, 0xa679438e);
    let v = operation(Round::First, v, x, 15, 22, 0x49b40821);
    v
}

fn first_round(v: Digest, x: &[u8]) -> Digest
    requires { length x.now ≡ 64 }
{
    first_round_ended(first_round_begun(v, x), x)
}

fn second_round_begun(v: Digest, x: &[u8]) -> Digest
    requires { length x.now ≡ 64 }
{
    let v = operation(Round::Second, v, x, 1, 5, 0xf61e2562);
    let v = operation(Round::Second, v, x, 6, 9, 0xc040b340);
    let v = operation(Round::Second, v, x, 11, 14, 0x265e5a51);
    let v = operation(Round::Second, v, x, 0, 20, 0xe9b6c7aa);
    let v = operation(Round::Second, v, x, 5, 5, 0xd62f105d);
    let v = operation(Round::Second, v, x, 10, 9, 0x02441453);
    let v = operation(Round::Second, v, x, 15, 14, 0xd8a1e681);
    let v = operation(Round::Second, v, x, 4, 20, 0xe7d3fbc8);
    v
}

fn second_round_ended(v: Digest, x: &[u8]) -> Digest
    requires { length x.now ≡ 64 }
{
    let v = operation(Round::Second, v, x, 9, 5, 0x21e1cde6);
    let v = operation(Round::Second, v, x, 14, 9, 0xc33707d6);
    let v = operation(Round::Second, v, x, 3, 14, 0xf4d50d87);
    let v = operation(Round::Second, v, x, 8, 20, 0x455a14ed);
    let v = operation(Round::Second, v, x, 13, 5, 0xa9e3e905);
    let v = operation(Round::Second, v, x, 2, 9, 0xfcefa3f8);
    let v = operation(Round::Second, v, x, 7, 14, 0x676f02d9);
    let v = operation(Round::Second, v, x, 12, 20, 0x8d2a4c8a);
    v
}

fn second_round(v: Digest, x: &[u8]) -> Digest
    requires { length x.now ≡ 64 }
{
    second_round_ended(second_round_begun(v, x), x)
}

fn third_round_begun(v: Digest, x: &[u8]) -> Digest
    requires { length x.now ≡ 64 }
{
    let v = operation(Round::Third, v, x, 5, 4, 0xfffa3942);
    let v = operation(Round::Third, v, x, 8, 11, 0x8771f681);
    let v = operation(Round::Third, v, x, 11, 16, 0x6d9d6122);
    let v = operation(Round::Third, v, x, 14, 23, 0xfde5380c);
    let v = operation(Round::Third, v, x, 1, 4, 0xa4beea44);
    let v = operation(Round::Third, v, x, 4, 11, 0x4bdecfa9);
    let v = operation(Round::Third, v, x, 7, 16, 0xf6bb4b60);
    let v = operation(Round::Third, v, x, 10, 23, 0xbebfbc70);
    v
}

fn third_round_ended(v: Digest, x: &[u8]) -> Digest
    requires { length x.now ≡ 64 }
{
    let v = operation(Round::Third, v, x, 13, 4, 0x289b7ec6);
    let v = operation(Round::Third, v, x, 0, 11, 0xeaa127fa);
    let v = operation(Round::Third, v, x, 3, 16, 0xd4ef3085);
    let v = operation(Round::Third, v, x, 6, 23, 0x04881d05);
    let v = operation(Round::Third, v, x, 9, 4, 0xd9d4d039);
    let v = operation(Round::Third, v, x, 12, 11, 0xe6db99e5);
    let v = operation(Round::Third, v, x, 15, 16, 0x1fa27cf8);
    let v = operation(Round::Third, v, x, 2, 23, 0xc4ac5665);
    v
}

fn third_round(v: Digest, x: &[u8]) -> Digest
    requires { length x.now ≡ 64 }
{
    third_round_ended(third_round_begun(v, x), x)
}

fn fourth_round_begun(v: Digest, x: &[u8]) -> Digest
    requires { length x.now ≡ 64 }
{
    let v = operation(Round::Fourth, v, x, 0, 6, 0xf4292244);
    let v = operation(Round::Fourth, v, x, 7, 10, 0x432aff97);
    let v = operation(Round::Fourth, v, x, 14, 15, 0xab9423a7);
    let v = operation(Round::Fourth, v, x, 5, 21, 0xfc93a039);
    let v = operation(Round::Fourth, v, x, 12, 6, 0x655b59c3);
    let v = operation(Round::Fourth, v, x, 3, 10, 0x8f0ccc92);
    let v = operation(Round::Fourth, v, x, 10, 15, 0xffeff47d);
    let v = operation(Round::Fourth, v, x, 1, 21, 0x85845dd1);
    v
}

fn fourth_round_ended(v: Digest, x: &[u8]) -> Digest
    requires { length x.now ≡ 64 }
{
    let v = operation(Round::Fourth, v, x, 8, 6, 0x6fa87e4f);
    let v = operation(Round::Fourth, v, x, 15, 10, 0xfe2ce6e0);
    let v = operation(Round::Fourth, v, x, 6, 15, 0xa3014314);
    let v = operation(Round::Fourth, v, x, 13, 21, 0x4e0811a1);
    let v = operation(Round::Fourth, v, x, 4, 6, 0xf7537e82);
    let v = operation(Round::Fourth, v, x, 11, 10, 0xbd3af235);
    let v = operation(Round::Fourth, v, x, 2, 15, 0x2ad7d2bb);
    let v = operation(Round::Fourth, v, x, 9, 21, 0xeb86d391);
    v
}

fn fourth_round(v: Digest, x: &[u8]) -> Digest
    requires { length x.now ≡ 64 }
{
    fourth_round_ended(fourth_round_begun(v, x), x)
}

// The words after the block x.
fn block(v: Digest, x: &[u8]) -> Digest
    requires { length x.now ≡ 64 }
{
    let w = fourth_round(third_round(second_round(first_round(v, x), x), x), x);
    let a = std::num::wrapping_add_u32(w.a, v.a);
    let b = std::num::wrapping_add_u32(w.b, v.b);
    let c = std::num::wrapping_add_u32(w.c, v.c);
    let d = std::num::wrapping_add_u32(w.d, v.d);
    Digest {
        a: a,
        b: b,
        c: c,
        d: d,
    }
}

// The words after the first n blocks of m.
pub(crate) fn blocks(v0: Digest, m: &[u8], n: usize) -> Digest
    requires { 64 * n ≤ length m.now }
{
    let mut v = v0;
    for i in 0..n {
        let at = i * 64;
        let end = at + 64;
        v = block(v, &m[at..end]);
    }
    v
}
