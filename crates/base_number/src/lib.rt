// Numbers in bytes, low byte first.
#![tactic(auto)]

ghost use Rattle.std.specs.Prelude.{◌≡◌, ◌+◌, ◌<◌, ◌≤◌, length, take, drop};
ghost use Rattle.base_number.specs.Number.{le, from_le, replaced_at};

// A byte as a wider number, with the bound that sums of bytes need.
pub fn wide(x: u8) -> u16
    ensures { (result ≡ x) × (result < 256) }
{
    x as u16
}

// The number in the bytes of b from `at` on, at each width.
pub fn get_u16(b: &[u8], at: usize) -> u16
    requires { at + 2 ≤ length b.now }
    ensures { result ≡ from_le (take 2 (drop at b.now)) }
{
    wide(b[at]) + 256 * wide(b[at + 1])
}

pub fn get_u32(b: &[u8], at: usize) -> u32
    requires { at + 4 ≤ length b.now }
    ensures { result ≡ from_le (take 4 (drop at b.now)) }
{
    get_u16(b, at) as u32 + 65536 * (get_u16(b, at + 2) as u32)
}

pub fn get_u64(b: &[u8], at: usize) -> u64
    requires { at + 8 ≤ length b.now }
    ensures { result ≡ from_le (take 8 (drop at b.now)) }
{
    get_u32(b, at) as u64 + 4294967296 * (get_u32(b, at + 4) as u64)
}

// v over the bytes of b from `at` on, at each width; the rest of b is as it was.
pub fn put_u16(b: &mut [u8], at: usize, v: u16)
    requires { at + 2 ≤ length b.old }
    ensures { b.new ≡ replaced_at b.old at (le 2 v) 2 }
{
    b[at] = (v % 256) as u8;
    b[at + 1] = (v / 256) as u8;
}

pub fn put_u32(b: &mut [u8], at: usize, v: u32)
    requires { at + 4 ≤ length b.old }
    ensures { b.new ≡ replaced_at b.old at (le 4 v) 4 }
{
    put_u16(b, at, (v % 65536) as u16);
    put_u16(b, at + 2, (v / 65536) as u16);
}

pub fn put_u64(b: &mut [u8], at: usize, v: u64)
    requires { at + 8 ≤ length b.old }
    ensures { b.new ≡ replaced_at b.old at (le 8 v) 8 }
{
    put_u32(b, at, (v % 4294967296) as u32);
    put_u32(b, at + 4, (v / 4294967296) as u32);
}
