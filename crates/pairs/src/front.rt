// The pair that bytes begin with.
ghost use Rattle.std.specs.Prelude.{◌≡◌, true, ◌&&◌, ◌+◌, ◌<◌, ◌≤◌, length, drop};
ghost use Rattle.machine.specs.Pairs.{pair_ok, front_middle, front_size, front_key, front_value, front_fits, front_pair};

// Where its value's length stands.
fn middle(rest: &[u8]) -> usize
    requires { 0 < length rest.now }
    ensures { (result ≡ front_middle rest.now) × (result ≤ 256) }
{
    1 + base_number::wide(rest[0]) as usize
}

// Whether it is there and not cut off.
fn fits(rest: &[u8]) -> bool
    ensures { result ≡ front_fits rest.now }
{
    let n = rest.len();
    if n < 1 {
        return false;
    }
    let m = middle(rest);
    m < n && m + 1 + base_number::wide(rest[m]) as usize <= n
}

// How many bytes it has.
pub fn size(rest: &[u8]) -> usize
    requires { front_fits rest.now ≡ true }
    ensures { (result ≡ front_size rest.now) × (result ≤ length rest.now) }
{
    let m = middle(rest);
    m + 1 + base_number::wide(rest[m]) as usize
}

// Its key.
pub fn key(rest: &[u8]) -> &[u8]
    requires { front_fits rest.now ≡ true }
    ensures { result.now ≡ front_key rest.now }
{
    let m = middle(rest);
    &rest[1..m]
}

// Its value.
pub fn value(rest: &[u8]) -> &[u8]
    requires { front_fits rest.now ≡ true }
    ensures { result.now ≡ front_value rest.now }
{
    let from = middle(rest) + 1;
    let to = size(rest);
    &rest[from..to]
}

// Whether it is there and keeps the rule of a pair.
pub fn pair_ok(rest: &[u8]) -> bool
    ensures { result ≡ (front_fits rest.now && pair_ok (front_pair rest.now)) }
{
    fits(rest) && crate::rules::key_ok(key(rest)) && crate::rules::value_ok(value(rest))
}

// Where the pair at `at` ends.
pub fn end(pairs: &[u8], at: usize) -> usize
    requires { (at < length pairs.now) × (front_fits (drop at pairs.now) ≡ true) }
    ensures { (result ≡ at + front_size (drop at pairs.now))
        × (at + 2 ≤ result) × (result ≤ length pairs.now) }
{
    at + size(&pairs[at..])
}
