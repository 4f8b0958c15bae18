// Decimal numbers below 2^64.
ghost use Rattle.std.specs.Prelude.{◌≡◌, ◌<◌, drop, IfSome, unwrap_or};
ghost use Rattle.recording.specs.Read.{digit_value, digits_on, read_number};
ghost use Rattle.recording.specs.Parse.{number};
ghost use Rattle.recording_read.specs.Meant.{number_meant};

use crate::Field;

// The value of a decimal digit.
#[tactic(auto, using(machine::proofs::Tests::tests), unfolding(recording::specs::Read::digit_value))]
fn digit_value(b: u8) -> Option<u8>
    ensures value { unwrap_or result 10 ≡ digit_value b }
    ensures digit { IfSome result (λ d. d < 10) }
{
    match b {
        b'0'..=b'9' => Some(b - b'0'),
        _ => None,
    }
}

// The digits from a place on, up to the first other byte.
fn digits(s: &[u8], at: usize) -> Option<Field<u64>>
    ensures { number_meant s.now result ≡ digits_on 0 (drop at s.now) }
{
    let mut v: u64 = 0;
    for i in at..s.len() {
        let Some(d) = digit_value(s[i]) else {
            return Some(Field { value: v, next: i });
        };
        let w = v.checked_mul(10)?;
        v = w.checked_add(u64::from(d))?;
    }
    Some(Field {
        value: v,
        next: s.len(),
    })
}

// A number without leading zeros.
pub fn read_number(s: &[u8], at: usize) -> Option<Field<u64>>
    ensures { number_meant s.now result ≡ read_number (drop at s.now) }
{
    let b = crate::byte_at(s, at);
    if b == b'0' {
        return Some(Field {
            value: 0,
            next: at + 1,
        });
    }
    let _ = digit_value(b)?;
    digits(s, at)
}

// A number after one space.
pub fn number_field(s: &[u8], at: usize) -> Option<Field<u64>>
    ensures { number_meant s.now result ≡ number (drop at s.now) }
{
    let next = crate::after(s, at, b' ')?;
    read_number(s, next)
}
