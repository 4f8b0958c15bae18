// Paths of visible ASCII alone.
#![tactic(auto)]

ghost use Rattle.std.specs.Prelude.{◌≡◌, cond, ◌+◌, ◌-◌, ◌≤◌, ◌<◌, ltb, eqb, length, take, drop};
ghost use Rattle.names_ascii.specs.Faults.{fault_of, faults_beside, clean, run};

// 1 where b may not stand after `before` in a path of visible ASCII.
#[tactic(auto, using(machine::proofs::Tests::tests), unfolding(crate::specs::Faults::fault_of, crate::specs::Faults::stands))]
fn fault(before: u8, b: u8) -> u8
    ensures { result ≡ fault_of before b }
{
    if b < 33 || 126 < b || (before == b'/' && b == b'/') {
        1
    } else {
        0
    }
}

// Whether p is visible ASCII without "//" and a "/" first. Every byte is looked at: a loop without an early end goes many bytes at a time.
pub fn plain(p: &[u8]) -> bool
    requires { length p.now ≤ 128 }
    ensures { result ≡ clean 47 p.now }
{
    let mut before = b'/';
    let mut bad = 0;
    for b in p {
        bad += fault(before, *b);
        before = *b;
    }
    bad == 0
}

// What is counted at place k: nothing below 32.
fn counted(k: u8, f: u8) -> u8
    ensures { result ≡ cond (ltb k 32) 0 f }
{
    if k < 32 { 0 } else { f }
}

// How many of the last n of 32 bytes may not stand after those in `before`. The loop has a length that the compiler knows, nothing carried
// but counts, and a place in one byte: so it goes 16 bytes at a time.
fn faults(before: &[u8], s: &[u8], n: usize) -> u8
    requires { (length before.now ≡ 32) × (length s.now ≡ 32) × (n ≤ 32) }
    ensures { result ≡ faults_beside (drop (32 - n) before.now) (drop (32 - n) s.now) }
{
    let mut bad = 0;
    let mut k = n as u8;
    for i in 0..32 {
        bad += counted(k, fault(before[i], s[i]));
        k += 1;
    }
    bad
}

// How many of the last n of the 32 bytes of t that end at `end` may not stand where they stand.
fn block(t: &[u8], end: usize, n: usize) -> u8
    requires { (33 ≤ end) × (end ≤ length t.now) × (n ≤ 32) }
    ensures { (eqb result 0 ≡ run t.now (end - (n + 1)) end) × (result ≤ 32) }
{
    faults(&t[end - 33..end - 1], &t[end - 32..end], n)
}

// Whether the bytes of t from `from` to `to`, at most 32, are visible ASCII without "//" and a "/" first: one block, which begins before
// them, with bytes that do not count.
pub fn short_at(t: &[u8], from: usize, to: usize) -> bool
    requires { (33 ≤ from) × (from < to) × (to - from ≤ 32) × (to ≤ length t.now) }
    ensures { result ≡ clean 47 (take (to - from) (drop from t.now)) }
{
    t[from] != b'/' && block(t, to, to - from) == 0
}

// The same of at most 128 bytes: more than 32 are the block at their start and those at their end.
pub fn plain_at(t: &[u8], from: usize, to: usize) -> bool
    requires { (33 ≤ from) × (from < to) × (to - from ≤ 128) × (to ≤ length t.now) }
    ensures { result ≡ clean 47 (take (to - from) (drop from t.now)) }
{
    if to - from <= 32 {
        return short_at(t, from, to);
    }
    if t[from] == b'/' {
        return false;
    }
    let first = from + 32;
    let mut bad = block(t, first, 32);
    let mut end = to;
    while first < end {
        bad += block(t, end, 32);
        end -= 32;
    }
    bad == 0
}
