// The rule of a pair.
ghost use Rattle.std.specs.Prelude.{◌≡◌};
ghost use Rattle.std.specs.List.{list_all};
ghost use Rattle.machine.specs.Pairs.{key_byte, value_byte, key_ok, value_ok, system_key};

// A lower-case letter, a digit or a hyphen. Letters, the most, are told by the first two tests.
#[tactic(auto, using(machine::proofs::Tests::tests), unfolding(machine::specs::Pairs::key_byte))]
fn key_byte(b: u8) -> bool
    ensures { result ≡ key_byte b }
{
    if b'a' <= b {
        b <= b'z'
    } else {
        b == b'-' || (b'0' <= b && b <= b'9')
    }
}

// A byte from 32 to 126.
#[tactic(auto, using(machine::proofs::Tests::tests), unfolding(machine::specs::Pairs::value_byte))]
fn value_byte(b: u8) -> bool
    ensures { result ≡ value_byte b }
{
    (32..=126).contains(&b)
}

fn all_key_bytes(k: &[u8]) -> bool
    ensures { result ≡ list_all key_byte k.now }
{
    k.iter().all(|b| key_byte(*b))
}

fn all_value_bytes(v: &[u8]) -> bool
    ensures { result ≡ list_all value_byte v.now }
{
    v.iter().all(|b| value_byte(*b))
}

// Whether it is a key: 1 to 32 such bytes.
pub fn key_ok(k: &[u8]) -> bool
    ensures { result ≡ key_ok k.now }
{
    let n = k.len();
    if n < 1 || 32 < n {
        return false;
    }
    all_key_bytes(k)
}

// Whether it is a value: 0 to 64 such bytes.
pub fn value_ok(v: &[u8]) -> bool
    ensures { result ≡ value_ok v.now }
{
    v.len() <= 64 && all_value_bytes(v)
}

// Whether pairs with this key are dropped.
pub fn system_key(k: &[u8]) -> bool
    ensures { result ≡ system_key k.now }
{
    base_order::equal(k, b"size")
        || base_order::equal(k, b"created")
        || base_order::equal(k, b"etag")
}
