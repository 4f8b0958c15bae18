// Numbers as text.
#![tactic(auto)]

ghost use Rattle.std.specs.Prelude.{◌≡◌, ◌+◌, ◌*◌, ◌≤◌, ◌<◌, ◌++◌, length};
ghost use Rattle.base_number.specs.Number.{le, replaced_at, written};
ghost use Rattle.base_text.specs.Text.{hex_digit, hex, decimal};

// A lower-case hexadecimal digit.
#[tactic(auto, unfolding(crate::specs::Text::hex_digit))]
fn hex_digit(n: u8) -> u8
    requires { n < 16 }
    ensures { result ≡ hex_digit n }
{
    if n < 10 { 48 + n } else { 87 + n }
}

// The bytes of src in lower-case hexadecimal, two digits each, over dst from `at` on.
pub fn put_hex(dst: &mut [u8], at: usize, src: &[u8])
    requires { at + 2 * length src.now ≤ length dst.old }
    ensures { dst.new
        ≡ replaced_at dst.old at (hex src.now) (2 * length src.now) }
{
    for (i, x) in src.iter().enumerate() {
        let high = hex_digit(*x / 16);
        let low = hex_digit(*x % 16);
        let to = at + 2 * i;
        dst[to] = high;
        dst[to + 1] = low;
    }
}

// The 32 hexadecimal digits of a digest of four words, each with its low byte first.
pub fn put_digest(dst: &mut [u8], at: usize, a: u32, b: u32, c: u32, d: u32)
    requires { at + 32 ≤ length dst.old }
    ensures { dst.new
        ≡ replaced_at dst.old at (hex (le 4 a ++ (le 4 b ++ (le 4 c ++ le 4 d)))) 32 }
{
    let mut bytes = [0u8; 16];
    base_number::put_u32(&mut bytes, 0, a);
    base_number::put_u32(&mut bytes, 4, b);
    base_number::put_u32(&mut bytes, 8, c);
    base_number::put_u32(&mut bytes, 12, d);
    put_hex(dst, at, &bytes);
}

// How many digits n has in decimal.
pub fn decimal_length(n: u16) -> usize
    ensures { (result ≡ length (decimal n)) × ((1 ≤ result) × (result ≤ 5)) }
{
    if n < 10 {
        return 1;
    }
    if n < 100 {
        return 2;
    }
    if n < 1000 {
        return 3;
    }
    if n < 10000 {
        return 4;
    }
    5
}

// n in decimal, with no zero before it, over dst from `at` on; the answer is how many digits it has.
pub fn put_decimal(dst: &mut [u8], at: usize, n: u16) -> usize
    requires { at + length (decimal n) ≤ length dst.old }
    ensures { (result ≡ length (decimal n)) × (dst.new ≡ written dst.old at (decimal n)) }
{
    let a = n / 10;
    let b = a / 10;
    let c = b / 10;
    let d = c / 10;
    let all = [
        (48 + d % 10) as u8,
        (48 + c % 10) as u8,
        (48 + b % 10) as u8,
        (48 + a % 10) as u8,
        (48 + n % 10) as u8,
    ];
    let k = decimal_length(n);
    base_buffer::copy_at(dst, at, &all[5 - k..]);
    k
}
