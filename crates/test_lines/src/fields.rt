// A line's fields, separated by one space.
ghost use Rattle.std.specs.Prelude.{◌+◌, ◌≤◌, length};
ghost use Rattle.test_lines.specs.Counts.{IsPrefixLen};

// What a list has: part numbers as COMMIT takes them, 16 bits each; places as DELETE_OBJECTS takes them from C, two
// numbers of 32 bits each; pairs as PUT and INITIATE take them. The low byte of a number is first.
#[derive(Clone, Copy)]
pub enum Kind {
    PartNumbers,
    Places,
    Pairs,
}

// The index of the first such byte, from an index on; the text's length where there is none.
pub fn find(text: &[u8], from: usize, byte: u8) -> usize
    requires { from ≤ length text.now }
    ensures { (from ≤ result) × (result ≤ length text.now) }
{
    for i in from..text.len() {
        if text[i] == byte {
            return i;
        }
    }
    text.len()
}

// One further, where such a byte stands there.
fn skip(text: &[u8], at: usize, byte: u8) -> usize
    requires { at ≤ length text.now }
    ensures { (at ≤ result) × (result ≤ length text.now) }
{
    if at < text.len() && text[at] == byte {
        return at + 1;
    }
    at
}

// Where field k starts; the line's length where it has no such field.
fn start(line: &[u8], k: usize) -> usize
    ensures { result ≤ length line.now }
{
    let mut at = 0;
    for _ in 0..k {
        at = find(line, at, b' ');
        at = skip(line, at, b' ');
    }
    at
}

// Field k, counted from 0; `~` is the empty field, and so is one that the line lacks.
pub fn field(line: &[u8], k: usize) -> &[u8] {
    let at = start(line, k);
    let from = skip(line, at, b'~');
    let to = find(line, from, b' ');
    &line[from..to]
}

// The number that the text begins with.
fn decimal(text: &[u8]) -> u64 {
    let mut n: u64 = 0;
    for &b in text {
        if !b.is_ascii_digit() || 1000000000000000000 <= n {
            return n;
        }
        n = 10 * n + u64::from(b - b'0');
    }
    n
}

// The number in field k, or `most` where it is more.
pub fn number(line: &[u8], k: usize, most: u64) -> u64
    ensures { result ≤ most }
{
    decimal(field(line, k)).min(most)
}

// A part number; 65,535, which is none, where it is more.
pub fn part_number(text: &[u8]) -> u16 {
    u16::try_from(decimal(text)).unwrap_or(u16::MAX)
}

// A number of 32 bits; the last of them where it is more.
fn word(text: &[u8]) -> u32 {
    u32::try_from(decimal(text)).unwrap_or(u32::MAX)
}

// So many, or `most` where it is more.
fn at_most(n: u64, most: usize) -> usize
    ensures { result ≤ most }
{
    usize::try_from(n).unwrap_or(most).min(most)
}

// A place, its start and its length separated by a colon, at index n in eight bytes; or `*` and a count: so many places, as the bytes
// of `out` say them. Answers the index after it.
fn put_place(text: &[u8], out: &mut [u8], n: usize) -> usize
    requires { n + 8 ≤ length out.old }
    ensures { result ≤ length out.old }
{
    let count = skip(text, 0, b'*');
    if 0 < count {
        let more = decimal(&text[count..]);
        return n + 8 * at_most(more, (out.len() - n) / 8);
    }
    let end = find(text, 0, b':');
    let rest = skip(text, end, b':');
    let start = word(&text[0..end]);
    let len = word(&text[rest..]);
    base_number::put_u32(out, n, start);
    base_number::put_u32(out, n + 4, len);
    n + 8
}

// A key or a value at index n: its length in a byte, then its bytes. Answers the index after it; n where it does not fit.
fn put_counted(text: &[u8], out: &mut [u8], n: usize) -> usize
    requires { n ≤ length out.old }
    ensures { result ≤ length out.old }
{
    let m = text.len();
    let Ok(size) = u8::try_from(m) else {
        return n;
    };
    if out.len() - n <= m {
        return n;
    }
    out[n] = size;
    base_buffer::copy_at(out, n + 1, text);
    n + 1 + m
}

// A pair, its key and its value separated by `=`, at index n. Answers the index after it.
fn put_pair(text: &[u8], out: &mut [u8], n: usize) -> usize
    requires { n ≤ length out.old }
    ensures { result ≤ length out.old }
{
    let end = find(text, 0, b'=');
    let rest = skip(text, end, b'=');
    let value = put_counted(&text[0..end], out, n);
    put_counted(&text[rest..], out, value)
}

// An entry of a list, at index n. `+` is one odd byte. Answers the index after it.
fn put_entry(text: &[u8], kind: Kind, out: &mut [u8], n: usize) -> usize
    requires { n + 8 ≤ length out.old }
    ensures { result ≤ length out.old }
{
    if text == b"+".as_slice() {
        return n + 1;
    }
    match kind {
        Kind::PartNumbers => {
            base_number::put_u16(out, n, part_number(text));
            n + 2
        }
        Kind::Places => put_place(text, out, n),
        Kind::Pairs => put_pair(text, out, n),
    }
}

// A list of one of these kinds, its entries separated by commas, in bytes. Answers how many bytes it has.
pub fn list_bytes(list: &[u8], kind: Kind, out: &mut [u8]) -> usize
    ensures { IsPrefixLen result out.new }
{
    let mut at = 0;
    let mut n: usize = 0;
    while at < list.len() {
        if out.len() < n + 8 {
            return n;
        }
        let end = find(list, at, b',');
        n = put_entry(&list[at..end], kind, out, n);
        at = end + 1;
    }
    n
}
