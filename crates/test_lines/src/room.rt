// Room in memory.
ghost use Rattle.std.specs.Prelude.{◌≡◌, length};

// So many bytes b. The contract spares a caller's proof the length of the list, which may be too long to compute.
pub fn room<const N: usize>(b: u8) -> [u8; N]
    ensures { length result ≡ N }
{
    [b; N]
}
