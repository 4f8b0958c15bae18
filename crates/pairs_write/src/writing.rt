// Pairs written: to memory, and to an answer buffer.
ghost use Rattle.std.specs.Prelude.{◌≡◌, true, [], ◌∷◌, ◌++◌, ◌+◌, ◌≤◌, ◌<◌, length, drop};
ghost use Rattle.base_number.specs.Number.{replaced_at};
ghost use Rattle.machine.specs.Pairs.{pair_record, encode_pairs};
ghost use Rattle.pairs_stored.specs.Stored.{lengths_of, bytes_of, pairs_at, stored_ok};

// A byte over the one at `at`.
fn put_byte(b: &mut [u8], at: usize, v: u8)
    requires { at < length b.old }
    ensures { b.new ≡ replaced_at b.old at (v ∷ []) 1 }
{
    b[at] = v;
}

// The lengths of key and value over the two bytes from `at` on.
pub(crate) fn write_lengths(lengths: &mut [u8], at: usize, key: &[u8], value: &[u8])
    requires { (length key.now < 256) × (length value.now < 256) × (at + 2 ≤ length lengths.old) }
    ensures { lengths.new
        ≡ replaced_at lengths.old at (lengths_of key.now value.now) 2 }
{
    put_byte(lengths, at, key.len() as u8);
    put_byte(lengths, at + 1, value.len() as u8);
}

// Key and value over the bytes from `at` on.
pub(crate) fn write_bytes(bytes: &mut [u8], at: usize, key: &[u8], value: &[u8])
    requires { at + (length key.now + length value.now) ≤ length bytes.old }
    ensures { bytes.new
        ≡ replaced_at bytes.old at (bytes_of key.now value.now)
        (length key.now + length value.now) }
{
    base_buffer::copy_at(bytes, at, key);
    base_buffer::copy_at(bytes, at + key.len(), value);
}

// Key length, key, value length and value over the bytes from `at` on.
fn write_pair(answer: &mut [u8], at: usize, key: &[u8], value: &[u8])
    requires { (length key.now < 256) × (length value.now < 256)
        × (at + (2 + length key.now + length value.now) ≤ length answer.old) }
    ensures { answer.new
        ≡ replaced_at answer.old at (pair_record key.now value.now)
        (2 + length key.now + length value.now) }
{
    let n = key.len();
    put_byte(answer, at, n as u8);
    base_buffer::copy_at(answer, at + 1, key);
    put_byte(answer, at + 1 + n, value.len() as u8);
    base_buffer::copy_at(answer, at + 2 + n, value);
}

// The pairs in memory, to the front of the answer buffer.
pub fn encode(lengths: &[u8], bytes: &[u8], answer: &mut [u8])
    requires { (stored_ok lengths.now bytes.now ≡ true)
        × (length lengths.now + length bytes.now ≤ length answer.old) }
    ensures { answer.new ≡ encode_pairs (pairs_at lengths.now bytes.now)
        ++ drop (length lengths.now + length bytes.now) answer.old }
{
    let mut at = 0;
    for i in 0..lengths.len() / 2 {
        let k = pairs_stored::end(lengths, 2 * i, at);
        let v = pairs_stored::end(lengths, 2 * i + 1, k);
        write_pair(answer, 2 * i + at, &bytes[at..k], &bytes[k..v]);
        at = v;
    }
}
