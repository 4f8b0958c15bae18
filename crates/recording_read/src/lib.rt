// The fields of a recorded line, read from a place on.
#![tactic(auto)]

mod numbers;
mod strings;
mod verbs;

ghost use Rattle.std.specs.Prelude.{◌≡◌, ◌<◌, length, drop, get_or};
ghost use Rattle.recording.specs.Parse.{ends_line};
ghost use Rattle.recording_read.specs.Meant.{AfterByte, closed_meant};

pub use numbers::{number_field, read_number};
pub use strings::{decode, string_field};
pub use verbs::Verb;

// What was read, and the place after it.
#[derive(Clone, Copy)]
pub struct Field<T> {
    pub value: T,
    pub next: usize,
}

// The byte at a place; 0 past the end.
pub fn byte_at(s: &[u8], at: usize) -> u8
    ensures { (result ≡ get_or s.now at 0) × (0 < result → at < length s.now) }
{
    if at < s.len() {
        return s[at];
    }
    0
}

// The place after the byte b, where it stands at a place.
pub fn after(s: &[u8], at: usize, b: u8) -> Option<usize>
    ensures { AfterByte b s.now at result }
{
    if at < s.len() && s[at] == b {
        return Some(at + 1);
    }
    None
}

// Whether just a ")" is left.
pub fn ends_line(s: &[u8], at: usize) -> bool
    ensures { result ≡ ends_line (drop at s.now) }
{
    if s.len() <= at {
        return false;
    }
    if s.len() - at != 1 {
        return false;
    }
    s[at] == b')'
}

// What was read, where just a ")" is left after it.
pub fn closed<T: Copy>(s: &[u8], read: Option<Field<T>>) -> Option<T>
    ensures { result ≡ closed_meant s.now read }
{
    let Field { value, next } = read?;
    if ends_line(s, next) {
        return Some(value);
    }
    None
}
