// The test of pairs in memory.
ghost use Rattle.std.specs.Prelude.{◌≡◌, [], ◌+◌, ◌≤◌, ◌<◌, length, get_or};
ghost use Rattle.machine.specs.Pairs.{kept_after, kept_from};
ghost use Rattle.pairs_stored.specs.Stored.{sum_of, pairs_at, stored_ok};

// Whether a pair may stand after one with the key `last`.
#[tactic(auto, unfolding(machine::specs::Pairs::kept_after, machine::specs::Pairs::pair_ok))]
fn kept_after(last: &[u8], key: &[u8], value: &[u8]) -> bool
    ensures { result ≡ kept_after last.now (key.now, value.now) }
{
    pairs::rules::key_ok(key)
        && pairs::rules::value_ok(value)
        && !pairs::rules::system_key(key)
        && base_order::is_below(last, key)
}

// Where the key or value ends that begins at `at` and has the length at i.
pub fn end(lengths: &[u8], i: usize, at: usize) -> usize
    requires { (i < length lengths.now) × (at ≤ 65535) }
    ensures { (result ≡ at + get_or lengths.now i 0) × (result ≤ at + 255) }
{
    at + base_number::wide(lengths[i]) as usize
}

// How many bytes the lengths say.
pub fn sum_of(lengths: &[u8]) -> usize
    requires { length lengths.now ≤ 256 }
    ensures { result ≡ sum_of lengths.now }
{
    let mut n = 0;
    for i in 0..lengths.len() {
        n = end(lengths, i, n);
    }
    n
}

// Whether each pair may stand after the one before it.
fn all_kept(lengths: &[u8], bytes: &[u8]) -> bool
    requires { (length lengths.now ≤ 16) × (sum_of lengths.now ≡ length bytes.now) }
    ensures { result ≡ kept_from [] (pairs_at lengths.now bytes.now) }
{
    let mut from = 0;
    let mut to = 0;
    let mut at = 0;
    let mut i = 0;
    while i < lengths.len() {
        if lengths.len() < i + 2 {
            return false;
        }
        let k = end(lengths, i, at);
        let v = end(lengths, i + 1, k);
        if !kept_after(&bytes[from..to], &bytes[at..k], &bytes[k..v]) {
            return false;
        }
        from = at;
        to = k;
        at = v;
        i += 2;
    }
    true
}

// Whether lengths and bytes are the pairs of an object or an upload.
pub fn stored_ok(lengths: &[u8], bytes: &[u8]) -> bool
    ensures { result ≡ stored_ok lengths.now bytes.now }
{
    lengths.len() <= 2 * pairs::PAIRS_MOST
        && sum_of(lengths) == bytes.len()
        && all_kept(lengths, bytes)
}
