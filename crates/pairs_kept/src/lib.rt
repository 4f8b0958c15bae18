// Whether the pairs of a request are taken, and what is kept of them.
#![tactic(auto)]

ghost use Rattle.std.specs.Prelude.{◌≡◌, true, not, ◌&&◌, [], ◌∷◌, ◌<◌, ◌≤◌, length, drop};
ghost use Rattle.machine.specs.Pairs.{every, pair_ok, system_key, kept, has_key, distinct_keys, pairs_ok, pairs_held};
ghost use Rattle.machine.specs.Pairs.{front_size, front_key, front_fits, front_pair, pair_list};

// Whether each pair keeps its rule.
fn formed(pairs: &[u8]) -> bool
    ensures { result ≡ every pair_ok (pair_list pairs.now) }
{
    let mut at = 0;
    while at < pairs.len() {
        if !pairs::front::pair_ok(&pairs[at..]) {
            return false;
        }
        at = pairs::front::end(pairs, at);
    }
    true
}

// How many pairs are kept, and how many bytes their keys and values have.
#[derive(Clone, Copy)]
struct Kept {
    pairs: usize,
    bytes: usize,
}

// Of the first pair alone: 0 where it is dropped.
fn kept_first(rest: &[u8]) -> Kept
    requires { front_fits rest.now ≡ true }
    ensures { (result.pairs ≡ length (kept (front_pair rest.now ∷ [])))
        × (result.bytes ≡ pairs_held (kept (front_pair rest.now ∷ [])))
        × (result.pairs ≤ 1)
        × (result.bytes ≤ front_size rest.now) }
{
    if pairs::rules::system_key(pairs::front::key(rest)) {
        return Kept { pairs: 0, bytes: 0 };
    }
    let bytes = pairs::front::size(rest) - 2;
    Kept { pairs: 1, bytes }
}

// Of all pairs.
fn kept_all(pairs: &[u8]) -> Kept
    requires { every pair_ok (pair_list pairs.now) ≡ true }
    ensures { (result.pairs ≡ length (kept (pair_list pairs.now)))
        × (result.bytes ≡ pairs_held (kept (pair_list pairs.now))) }
{
    let mut n: usize = 0;
    let mut bytes: usize = 0;
    let mut at = 0;
    while at < pairs.len() {
        let first = kept_first(&pairs[at..]);
        n += first.pairs;
        bytes += first.bytes;
        at = pairs::front::end(pairs, at);
    }
    Kept { pairs: n, bytes }
}

// How many pairs are kept.
pub fn count(pairs: &[u8]) -> usize
    requires { every pair_ok (pair_list pairs.now) ≡ true }
    ensures { result ≡ length (kept (pair_list pairs.now)) }
{
    kept_all(pairs).pairs
}

// How many bytes of keys and values are kept.
pub fn held(pairs: &[u8]) -> usize
    requires { every pair_ok (pair_list pairs.now) ≡ true }
    ensures { result ≡ pairs_held (kept (pair_list pairs.now)) }
{
    kept_all(pairs).bytes
}

// Whether one of the pairs has the key.
fn has_key(pairs: &[u8], key: &[u8]) -> bool
    requires { every pair_ok (pair_list pairs.now) ≡ true }
    ensures { result ≡ has_key key.now (pair_list pairs.now) }
{
    let mut at = 0;
    while at < pairs.len() {
        if base_order::equal(key, pairs::front::key(&pairs[at..])) {
            return true;
        }
        at = pairs::front::end(pairs, at);
    }
    false
}

// Whether the first pair is kept and its key comes again.
fn comes_again(rest: &[u8]) -> bool
    requires { (0 < length rest.now) × (every pair_ok (pair_list rest.now) ≡ true) }
    ensures { result ≡ (not (system_key (front_key rest.now))
        && has_key (front_key rest.now)
        (pair_list (drop (front_size rest.now) rest.now))) }
{
    let key = pairs::front::key(rest);
    !pairs::rules::system_key(key) && has_key(&rest[pairs::front::size(rest)..], key)
}

// Whether no two kept pairs have equal keys.
fn all_distinct(pairs: &[u8]) -> bool
    requires { every pair_ok (pair_list pairs.now) ≡ true }
    ensures { result ≡ distinct_keys (kept (pair_list pairs.now)) }
{
    let mut at = 0;
    while at < pairs.len() {
        if comes_again(&pairs[at..]) {
            return false;
        }
        at = pairs::front::end(pairs, at);
    }
    true
}

// Whether they are taken: else the request is bad.
pub fn judge(pairs: &[u8]) -> bool
    ensures { result ≡ pairs_ok (pair_list pairs.now) }
{
    if !formed(pairs) {
        return false;
    }
    let n = count(pairs);
    let few = n <= pairs::PAIRS_MOST;
    few && all_distinct(pairs)
}
