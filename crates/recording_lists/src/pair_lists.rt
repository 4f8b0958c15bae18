// Pairs of key and value, in the bytes in which the store takes them.
ghost use Rattle.std.specs.Prelude.{◌≡◌, ◌+◌, ◌-◌, ◌*◌, min, ◌≤◌, ◌<◌, length, take, drop};
ghost use Rattle.recording.specs.Read.{map_read};
ghost use Rattle.recording.specs.Parse.{pairs};
ghost use Rattle.recording_read.specs.Meant.{string_meant, string_length, room_after};
ghost use Rattle.recording_lists.specs.Packed.{string_after, pair_after, packed_pairs};

use recording_read::Field;

// A length of 8 bits: 255, which no key or value has, where it is more.
fn short(n: usize) -> u8
    ensures { result ≡ min n 255 }
{
    u8::try_from(n).unwrap_or(u8::MAX)
}

// A quoted string as its length and its bytes, after the first n bytes of `out`.
fn counted_string(s: &[u8], at: usize, out: &mut [u8], n: usize) -> Option<Field<usize>>
    requires { 2 * n + (length s.now - at) < 2 * length out.old }
    ensures { (string_meant s.now out.new result ≡ string_after (take n out.old) (drop at s.now))
        × (room_after s.now result ≤ 2 * n + (length s.now - at))
        × (string_length result ≤ length out.old) }
{
    let digits = recording_read::after(s, at, b'"')?;
    let text = recording_read::decode(s, digits, out, n + 1)?;
    let k = short(text.value - n - 1);
    out[n] = k;
    Some(Field {
        value: n + 1 + usize::from(k),
        next: text.next,
    })
}

// A pair's bracket, after the first n bytes of `out`.
fn counted_pair(s: &[u8], at: usize, out: &mut [u8], n: usize) -> Option<Field<usize>>
    requires { 2 * n + (length s.now - at) ≤ 2 * length out.old }
    ensures { (string_meant s.now out.new result ≡ pair_after (take n out.old) (drop at s.now))
        × (room_after s.now result ≤ 2 * n + (length s.now - at))
        × (string_length result ≤ length out.old) }
{
    let inside = recording_read::after(s, at, b'(')?;
    let key = counted_string(s, inside, out, n)?;
    let second = recording_read::after(s, key.next, b' ')?;
    let both = counted_string(s, second, out, key.value)?;
    let next = recording_read::after(s, both.next, b')')?;
    Some(Field {
        value: both.value,
        next,
    })
}

// The pairs from a place on, each after one space.
pub fn read_pairs(s: &[u8], at: usize, out: &mut [u8]) -> Option<Field<usize>>
    requires { length s.now ≤ 2 * length out.old }
    ensures { (string_meant s.now out.new result ≡ map_read packed_pairs pairs (drop at s.now))
        × (string_length result ≤ length out.old) }
{
    let mut n: usize = 0;
    let mut i = at;
    while let Some(at) = recording_read::after(s, i, b' ') {
        let pair = counted_pair(s, at, out, n)?;
        n = pair.value;
        i = pair.next;
    }
    Some(Field { value: n, next: i })
}
