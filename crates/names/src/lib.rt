// The rules of paths, stamps and part numbers. What a request may name and what a store may hold is asked apart.
#![tactic(auto)]

ghost use Rattle.std.specs.Prelude.{◌≡◌, true, ◌-◌, ◌≤◌, length, take, drop};
ghost use Rattle.machine.specs.Names.{path_ok, request_path_ok, new_path_ok, stored_path_ok, stamp_ok, request_part_ok, stored_part_ok};

// Whether p is a path. Most are visible ASCII alone, which is seen in one pass.
fn path_ok(p: &[u8]) -> bool
    ensures { result ≡ path_ok p.now }
{
    let n = p.len();
    if n < 1 || 128 < n {
        return false;
    }
    names_ascii::plain(p) || names_utf8::path(p)
}

// A path that GET, HEAD, DELETE or COPY's source may name.
#[tactic(auto, unfolding(machine::specs::Names::request_path_ok))]
pub fn request_path_ok(p: &[u8]) -> bool
    ensures { result ≡ request_path_ok p.now }
{
    path_ok(p)
}

// A path that PUT, INITIATE or COPY's destination may make.
#[tactic(auto, unfolding(machine::specs::Names::new_path_ok))]
pub fn new_path_ok(p: &[u8]) -> bool
    ensures { result ≡ new_path_ok p.now }
{
    path_ok(p)
}

// A path that an object or an upload may have.
#[tactic(auto, unfolding(machine::specs::Names::stored_path_ok))]
pub fn stored_path_ok(p: &[u8]) -> bool
    ensures { result ≡ stored_path_ok p.now }
{
    path_ok(p)
}

// The same of the bytes of t from `from` to `to`, which stand after 33 others or more. It is for the scan of objects alone: the compiler
// puts a function with one caller in that caller's place, which saves up to a fifth of the time.
pub fn stored_path_ok_at(t: &[u8], from: usize, to: usize) -> bool
    requires { (33 ≤ from) × (from ≤ to) × (to ≤ length t.now) }
    ensures { result ≡ stored_path_ok (take (to - from) (drop from t.now)) }
{
    let length = to - from;
    if length < 1 || 128 < length {
        return false;
    }
    names_ascii::plain_at(t, from, to) || names_utf8::path(&t[from..to])
}

// Whether they are 1 to 32 bytes of visible ASCII that an object may have as its path. `false` says nothing of them.
pub fn short_path_ok_at(t: &[u8], from: usize, to: usize) -> bool
    requires { (33 ≤ from) × (from ≤ to) × (to ≤ length t.now) }
    ensures { result ≡ true → stored_path_ok (take (to - from) (drop from t.now)) ≡ true }
{
    let length = to - from;
    if length < 1 || 32 < length {
        return false;
    }
    names_ascii::short_at(t, from, to)
}

// Whether it is a stamp: 0 is none.
pub fn stamp_ok(stamp: u64) -> bool
    ensures { result ≡ stamp_ok stamp }
{
    1 <= stamp
}

// A part number that PART may name.
#[tactic(auto, using(machine::proofs::Tests::tests), unfolding(machine::specs::Names::request_part_ok))]
pub fn request_part_ok(n: u16) -> bool
    ensures { result ≡ request_part_ok n }
{
    (1..=10000).contains(&n)
}

// A part number that an upload may hold: since E7 it may be one that PART no longer takes.
#[tactic(auto, using(machine::proofs::Tests::tests), unfolding(machine::specs::Names::stored_part_ok, machine::specs::Names::number_ok))]
pub fn stored_part_ok(n: u32) -> bool
    ensures { result ≡ stored_part_ok n }
{
    (1..=11000).contains(&n)
}
