// The digest as it was before a block's words were formed once: each step reads its word from the bytes. For bench/ alone; that it is
// RFC 1321's is tested by crate `test_vectors`.
#![tactic(auto)]

mod block;

use base_md5::words::Digest;
use block::blocks;

pub fn digest(data: &[u8]) -> Digest {
    let n = data.len();
    let whole = n / 64;
    let v = blocks(Digest::initial(), data, whole);
    let start = whole * 64;
    if n - start < 56 {
        let t = base_md5::tail(data, start, 56);
        blocks(v, &t, 1)
    } else {
        let t = base_md5::tail(data, start, 120);
        blocks(v, &t, 2)
    }
}
