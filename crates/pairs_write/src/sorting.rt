// The kept pairs of a request, ascending by key.
ghost use Rattle.std.specs.Prelude.{◌≡◌, true, ◌+◌, ◌≤◌, ◌<◌, length, drop};
ghost use Rattle.base_number.specs.Number.{written};
ghost use Rattle.machine.specs.Pairs.{every, pair_ok, pair_map, front_fits, pair_list};
ghost use Rattle.pairs_stored.specs.Stored.{pair_lengths, pair_bytes};
ghost use Rattle.pairs_write.specs.Picking.{IsPick, Better, Next};

// The pair at `at` if it is kept, its key above `last` and not above that of the one at `pick`; else the one at `pick`.
fn better(pairs: &[u8], last: &[u8], pick: Option<usize>, at: usize) -> Option<usize>
    requires { (at < length pairs.now) × (front_fits (drop at pairs.now) ≡ true) × IsPick pairs.now pick }
    ensures { Better pairs.now last.now pick at result }
{
    let key = pairs::front::key(&pairs[at..]);
    if pairs::rules::system_key(key) || !base_order::is_below(last, key) {
        return pick;
    }
    match pick {
        Some(best) if base_order::is_below(pairs::front::key(&pairs[best..]), key) => pick,
        _ => Some(at),
    }
}

// Where the kept pair with the smallest key above `last` begins.
fn next_above(pairs: &[u8], last: &[u8]) -> Option<usize>
    requires { every pair_ok (pair_list pairs.now) ≡ true }
    ensures { Next pairs.now last.now result }
{
    let mut pick = None;
    let mut at = 0;
    while at < pairs.len() {
        pick = better(pairs, last, pick, at);
        at = pairs::front::end(pairs, at);
    }
    pick
}

// The kept pairs to memory: their lengths from `to` on, the bytes of their keys and values from `at` on.
pub fn write_kept(pairs: &[u8], lengths: &mut [u8], to: usize, bytes: &mut [u8], at: usize)
    requires { (every pair_ok (pair_list pairs.now) ≡ true)
        × (to + length (pair_lengths (pair_map (pair_list pairs.now))) ≤ length lengths.old)
        × (at + length (pair_bytes (pair_map (pair_list pairs.now))) ≤ length bytes.old) }
    ensures { (lengths.new
        ≡ written lengths.old to (pair_lengths (pair_map (pair_list pairs.now))))
        × (bytes.new
        ≡ written bytes.old at (pair_bytes (pair_map (pair_list pairs.now)))) }
{
    let mut l = to;
    let mut b = at;
    let mut pick = next_above(pairs, b"");
    while let Some(place) = pick {
        let rest = &pairs[place..];
        let key = pairs::front::key(rest);
        let value = pairs::front::value(rest);
        crate::writing::write_lengths(lengths, l, key, value);
        crate::writing::write_bytes(bytes, b, key, value);
        l += 2;
        b += key.len() + value.len();
        pick = next_above(pairs, key);
    }
}
