// Lists of part numbers, in the bytes in which the store takes them.
ghost use Rattle.std.specs.Prelude.{◌≡◌, ◌≤◌, length, drop};
ghost use Rattle.recording.specs.Read.{map_read, inside_numbers, read_numbers};
ghost use Rattle.recording.specs.Parse.{numbers};
ghost use Rattle.recording_read.specs.Meant.{string_meant, string_length};
ghost use Rattle.recording_lists.specs.Packed.{narrowed, packed};

use recording_read::Field;

// A number of 16 bits: 65,535, which no part has, where it is wider.
fn narrow(v: u64) -> u16
    ensures { result ≡ narrowed v }
{
    u16::try_from(v).unwrap_or(u16::MAX)
}

// The numbers inside a list's brackets, each after the first with a space before it.
fn numbers_inside(s: &[u8], at: usize, out: &mut [u8]) -> Option<Field<usize>>
    requires { (1 ≤ at) × (length s.now ≤ length out.old) }
    ensures { (string_meant s.now out.new result ≡ map_read packed inside_numbers (drop at s.now))
        × (string_length result ≤ length out.old) }
{
    let Some(first) = recording_read::read_number(s, at) else {
        return Some(Field { value: 0, next: at });
    };
    base_number::put_u16(out, 0, narrow(first.value));
    let mut n: usize = 2;
    let mut i = first.next;
    while let Some(at) = recording_read::after(s, i, b' ') {
        let more = recording_read::read_number(s, at)?;
        base_number::put_u16(out, n, narrow(more.value));
        n += 2;
        i = more.next;
    }
    Some(Field { value: n, next: i })
}

// A part list in its brackets.
fn read_numbers(s: &[u8], at: usize, out: &mut [u8]) -> Option<Field<usize>>
    requires { length s.now ≤ length out.old }
    ensures { (string_meant s.now out.new result ≡ map_read packed read_numbers (drop at s.now))
        × (string_length result ≤ length out.old) }
{
    let inside = recording_read::after(s, at, b'(')?;
    let list = numbers_inside(s, inside, out)?;
    let next = recording_read::after(s, list.next, b')')?;
    Some(Field {
        value: list.value,
        next,
    })
}

// A part list after one space.
pub fn numbers_field(s: &[u8], at: usize, out: &mut [u8]) -> Option<Field<usize>>
    requires { length s.now ≤ length out.old }
    ensures { (string_meant s.now out.new result ≡ map_read packed numbers (drop at s.now))
        × (string_length result ≤ length out.old) }
{
    let next = recording_read::after(s, at, b' ')?;
    read_numbers(s, next, out)
}
