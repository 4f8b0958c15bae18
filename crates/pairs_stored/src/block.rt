// The test of a block of the arena: the bytes of pairs, then data.
ghost use Rattle.std.specs.Prelude.{◌≡◌};
ghost use Rattle.pairs_stored.specs.Stored.{block_ok};

// Whether a block begins with the pairs of an object or an upload, which have these lengths.
pub fn block_ok(lengths: &[u8], block: &[u8]) -> bool
    ensures { result ≡ block_ok lengths.now block.now }
{
    if lengths.len() == 0 {
        return true;
    }
    if 2 * pairs::PAIRS_MOST < lengths.len() {
        return false;
    }
    let n = crate::stored::sum_of(lengths);
    n <= block.len() && crate::stored::stored_ok(lengths, &block[..n])
}
