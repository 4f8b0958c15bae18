// Byte strings compared.
#![tactic(auto)]

ghost use Rattle.std.specs.Prelude.{◌≡◌, ◌+◌, ◌≤◌, ◌<◌, length, take, drop};
ghost use Rattle.base_order.specs.Order.{by_bytes, is_below, same, begins, ends};
ghost use Rattle.base_order.specs.Compared.{Common, DecidingWord, Tells, order_of};
ghost use Rattle.base_order.specs.Big.{from_be};
ghost use Rattle.base_number.specs.Number.{le};

use std::cmp::Ordering;

// The number in the bytes of b from `at` on, high byte first, at each width.
fn big_u32(b: &[u8], at: usize) -> u32
    requires { at + 4 ≤ length b.now }
    ensures { result ≡ from_be (take 4 (drop at b.now)) }
{
    base_number::get_u32(b, at).swap_bytes()
}

fn big_u64(b: &[u8], at: usize) -> u64
    requires { at + 8 ≤ length b.now }
    ensures { result ≡ from_be (take 8 (drop at b.now)) }
{
    base_number::get_u64(b, at).swap_bytes()
}

// How many of the first n bytes a and b have in common at their start.
fn common_bytes(a: &[u8], b: &[u8], n: usize) -> usize
    requires { (n ≤ length a.now) × (n ≤ length b.now) }
    ensures { Common a.now b.now n result }
{
    for i in 0..n {
        if a[i] != b[i] {
            return i;
        }
    }
    n
}

// The place of the first word of eight bytes that differs, where the first `from` bytes are the same; where none before the
// last does, that of the last, which may overlap the one before it. Two words a turn: turns of one are so short that their
// time depends on where the linker puts them.
fn deciding_word(a: &[u8], b: &[u8], from: usize, n: usize) -> usize
    requires { (8 ≤ n) × (n ≤ length a.now) × (n ≤ length b.now) × (from ≤ n) × (take from a.now ≡ take from b.now) }
    ensures { DecidingWord a.now b.now n result }
{
    let last = n - 8;
    let mut i = from;
    while i < last {
        if base_number::get_u64(a, i) != base_number::get_u64(b, i) {
            return i;
        }
        let j = i + 8;
        if last <= j {
            return last;
        }
        if base_number::get_u64(a, j) != base_number::get_u64(b, j) {
            return j;
        }
        i = j + 8;
    }
    last
}

// Two numbers that tell how a stands to b.
#[derive(Clone, Copy)]
struct Numbers {
    x: u64,
    y: u64,
}

// The bytes that decide as two numbers, high byte first, where n is less than eight.
fn short_numbers(a: &[u8], b: &[u8], n: usize) -> Numbers
    requires { (n < 8) × (n ≤ length a.now) × (n ≤ length b.now) }
    ensures { Tells a.now b.now n result.x result.y }
{
    if 4 <= n {
        let x = 4294967296 * (big_u32(a, 0) as u64) + big_u32(a, n - 4) as u64;
        let y = 4294967296 * (big_u32(b, 0) as u64) + big_u32(b, n - 4) as u64;
        return Numbers { x, y };
    }
    let i = common_bytes(a, b, n);
    if i < n {
        let x = a[i] as u64;
        let y = b[i] as u64;
        return Numbers { x, y };
    }
    Numbers { x: 0, y: 0 }
}

// The same of any n, where the first `from` bytes are the same.
fn deciding_numbers(a: &[u8], b: &[u8], from: usize, n: usize) -> Numbers
    requires { (n ≤ length a.now) × (n ≤ length b.now) × (from ≤ n) × (take from a.now ≡ take from b.now) }
    ensures { Tells a.now b.now n result.x result.y }
{
    if n < 8 {
        return short_numbers(a, b, n);
    }
    let k = deciding_word(a, b, from, n);
    let x = big_u64(a, k);
    let y = big_u64(b, k);
    Numbers { x, y }
}

// Passes two words from i on while they are the same; the first i bytes are.
fn pass_two(a: &[u8], b: &[u8], i: usize) -> usize
    requires { (i + 16 ≤ length a.now) × (i + 16 ≤ length b.now) × (take i a.now ≡ take i b.now) }
    ensures { (i ≤ result) × (result ≤ i + 16) × (take result a.now ≡ take result b.now) }
{
    if base_number::get_u64(a, i) != base_number::get_u64(b, i) {
        return i;
    }
    if base_number::get_u64(a, i + 8) != base_number::get_u64(b, i + 8) {
        return i + 8;
    }
    i + 16
}

// The same of four words.
fn pass_four(a: &[u8], b: &[u8], i: usize) -> usize
    requires { (i + 32 ≤ length a.now) × (i + 32 ≤ length b.now) × (take i a.now ≡ take i b.now) }
    ensures { (i ≤ result) × (result ≤ i + 32) × (take result a.now ≡ take result b.now) }
{
    let r = pass_two(a, b, i);
    if r < i + 16 {
        return r;
    }
    pass_two(a, b, r)
}

// Passes words that are the same, four a turn, up to the first that differs or fewer than 32 bytes before n.
fn pass_words(a: &[u8], b: &[u8], n: usize) -> usize
    requires { (n ≤ length a.now) × (n ≤ length b.now) }
    ensures { (result ≤ n) × (take result a.now ≡ take result b.now) }
{
    let mut i = 0;
    while 32 <= n - i {
        let r = pass_four(a, b, i);
        if r < i + 32 {
            return r;
        }
        i = r;
    }
    i
}

// Which of a and b is first, byte by byte; a string is before those that it begins.
pub fn compare(a: &[u8], b: &[u8]) -> Ordering
    ensures { result ≡ order_of (by_bytes a.now b.now) }
{
    let n = b.len().min(a.len());
    let from = pass_words(a, b, n);
    let t = deciding_numbers(a, b, from, n);
    if t.x < t.y {
        return Ordering::Less;
    }
    if t.y < t.x {
        return Ordering::Greater;
    }
    a.len().cmp(&b.len())
}

// Whether a is before b: the comparison of the loops over rows, short enough that the compiler puts it into them. As one
// expression it is compiled without branches, and HEAD and GET take a tenth longer.
pub fn is_below(a: &[u8], b: &[u8]) -> bool
    ensures { result ≡ is_below a.now b.now }
{
    let n = b.len().min(a.len());
    let t = deciding_numbers(a, b, 0, n);
    if t.x < t.y {
        return true;
    }
    if t.y < t.x {
        return false;
    }
    a.len() < b.len()
}

// Whether they are the same bytes. Empty ones are seen first: most listings have an empty suffix.
pub fn equal(a: &[u8], b: &[u8]) -> bool
    ensures { result ≡ same a.now b.now }
{
    let n = a.len();
    if n != b.len() {
        return false;
    }
    if n == 0 {
        return true;
    }
    let t = deciding_numbers(a, b, 0, n);
    t.x == t.y
}

// Whether s begins with the prefix.
pub fn begins_with(s: &[u8], prefix: &[u8]) -> bool
    ensures { result ≡ begins prefix.now s.now }
{
    let n = prefix.len();
    n <= s.len() && equal(&s[..n], prefix)
}

// Whether s ends with the suffix.
pub fn ends_with(s: &[u8], suffix: &[u8]) -> bool
    ensures { result ≡ ends suffix.now s.now }
{
    let n = suffix.len();
    let m = s.len();
    n <= m && equal(&s[m - n..], suffix)
}
