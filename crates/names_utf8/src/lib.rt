// Characters of UTF-8, one after the other: the slow test, of paths that are not of visible ASCII alone.
#![tactic(auto)]

ghost use Rattle.std.specs.Prelude.{◌≡◌, true, MatchOption, ◌&&◌, ◌+◌, ◌≤◌, ◌<◌, leb, eqb, length};
ghost use Rattle.machine.specs.Names.{path_ok};
ghost use Rattle.names_utf8.specs.Letters.{width_of, least_of, most_of, Pair, Run, Letter};

// How many bytes the character that b begins has: none if it begins none.
#[tactic(auto, using(machine::proofs::Tests::tests), unfolding(crate::specs::Letters::width_of))]
fn width(b: u8) -> Option<usize>
    ensures { MatchOption result (width_of b ≡ 0) (λ w. (0 < w) × (w ≡ width_of b)) }
{
    match b {
        33..=126 => Some(1),
        194..=223 => Some(2),
        224..=239 => Some(3),
        240..=244 => Some(4),
        _ => None,
    }
}

// The least second byte after b.
#[tactic(auto, using(machine::proofs::Tests::tests), unfolding(crate::specs::Letters::least_of))]
fn least(b: u8) -> u8
    ensures { result ≡ least_of b }
{
    match b {
        194 | 224 => 160,
        240 => 144,
        _ => 128,
    }
}

// The last second byte after b.
#[tactic(auto, using(machine::proofs::Tests::tests), unfolding(crate::specs::Letters::most_of))]
fn most(b: u8) -> u8
    ensures { result ≡ most_of b }
{
    match b {
        237 => 159,
        244 => 143,
        _ => 191,
    }
}

fn between(low: u8, b: u8, high: u8) -> bool
    ensures { result ≡ (leb low b && leb b high) }
{
    (low..=high).contains(&b)
}

// Whether b and c are a letter of two bytes that begins with C3 to DF, as most letters outside ASCII do.
fn pair(b: u8, c: u8) -> bool
    ensures { result ≡ true → Pair b c }
{
    194 < b && b < 224 && between(128, c, 191)
}

// How many bytes such letters have that stand at i, one after the other.
fn pairs(p: &[u8], i: usize) -> usize
    requires { i < length p.now }
    ensures { Run p.now i (i + result) }
{
    let mut k = i;
    while 2 <= p.len() - k {
        if !pair(p[k], p[k + 1]) {
            return k - i;
        }
        k += 2;
    }
    k - i
}

// How many bytes the character at i has, or several there: none if none stands there.
fn letter(p: &[u8], i: usize) -> Option<usize>
    requires { i < length p.now }
    ensures { MatchOption result (Letter p.now i 0) (λ w. (0 < w) × Letter p.now i w) }
{
    let b = p[i];
    let run = pairs(p, i);
    if 0 < run {
        return Some(run);
    }
    let w = width(b)?;
    if p.len() - i < w {
        return None;
    }
    if w < 2 {
        return Some(w);
    }
    if !between(least(b), p[i + 1], most(b)) {
        return None;
    }
    if w < 3 {
        return Some(w);
    }
    if !between(128, p[i + 2], 191) {
        return None;
    }
    if w < 4 {
        return Some(w);
    }
    if !between(128, p[i + 3], 191) {
        return None;
    }
    Some(w)
}

// Whether both are "/".
fn doubled(before: u8, b: u8) -> bool
    ensures { result ≡ (eqb before 47 && eqb b 47) }
{
    before == b'/' && b == b'/'
}

// Whether p, of 1 to 128 bytes, is a path: characters from its start to its end, with no "/" after another, nor first.
pub fn path(p: &[u8]) -> bool
    requires { (1 ≤ length p.now) × (length p.now ≤ 128) }
    ensures { result ≡ path_ok p.now }
{
    let mut before = b'/';
    let mut i = 0;
    while i < p.len() {
        let Some(w) = letter(p, i) else {
            return false;
        };
        let b = p[i];
        if doubled(before, b) {
            return false;
        }
        before = b;
        i += w;
    }
    true
}
