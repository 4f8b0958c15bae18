// Strings in lower-case hexadecimal digit pairs between double quotes.
ghost use Rattle.std.specs.Prelude.{◌≡◌, ◌+◌, ◌-◌, ◌*◌, ◌≤◌, ◌<◌, length, take, drop, IfSome, unwrap_or};
ghost use Rattle.recording.specs.Read.{hex_value, hex_pair, hex_on, read_string};
ghost use Rattle.recording.specs.Parse.{string};
ghost use Rattle.recording_read.specs.Meant.{string_meant, string_length, room_after};

use crate::Field;

// The value of a lower-case hexadecimal digit.
#[tactic(auto, using(machine::proofs::Tests::tests), unfolding(recording::specs::Read::hex_value))]
fn hex_value(b: u8) -> Option<u8>
    ensures value { unwrap_or result 16 ≡ hex_value b }
    ensures digit { IfSome result (λ d. d < 16) }
{
    match b {
        b'0'..=b'9' => Some(b - b'0'),
        b'a'..=b'f' => Some(b - b'a' + 10),
        _ => None,
    }
}

// The byte that two digits stand for.
fn hex_pair(h: u8, l: u8) -> Option<u8>
    ensures { unwrap_or result 256 ≡ hex_pair h l }
{
    let high = hex_value(h)?;
    let low = hex_value(l)?;
    Some(16 * high + low)
}

// Digit pairs from a place on, up to the closing quote, decoded into `out` after its first n bytes: how many bytes these
// are then.
pub fn decode(s: &[u8], at: usize, out: &mut [u8], n: usize) -> Option<Field<usize>>
    requires { 2 * n + (length s.now - at) ≤ 2 * length out.old }
    ensures { (string_meant s.now out.new result ≡ hex_on (take n out.old) (drop at s.now))
        × (room_after s.now result ≤ 2 * n + (length s.now - at) - 1)
        × (string_length result ≤ length out.old) }
{
    let mut m = n;
    let mut i = at;
    while i < s.len() {
        let h = s[i];
        if h == b'"' {
            return Some(Field {
                value: m,
                next: i + 1,
            });
        }
        let x = hex_pair(h, crate::byte_at(s, i + 1))?;
        out[m] = x;
        m += 1;
        i += 2;
    }
    None
}

// A quoted string, decoded to the front of `out`, and how long it is.
pub fn read_string(s: &[u8], at: usize, out: &mut [u8]) -> Option<Field<usize>>
    requires { length s.now ≤ 2 * length out.old }
    ensures { (string_meant s.now out.new result ≡ read_string (drop at s.now))
        × (string_length result ≤ length out.old) }
{
    let next = crate::after(s, at, b'"')?;
    decode(s, next, out, 0)
}

// A quoted string after one space.
pub fn string_field(s: &[u8], at: usize, out: &mut [u8]) -> Option<Field<usize>>
    requires { length s.now ≤ 2 * length out.old }
    ensures { (string_meant s.now out.new result ≡ string (drop at s.now))
        × (string_length result ≤ length out.old) }
{
    let next = crate::after(s, at, b' ')?;
    read_string(s, next, out)
}
