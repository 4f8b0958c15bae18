// The four words of a digest, and RFC 1321's at the start (3.3).
ghost use Rattle.std.specs.Prelude.{◌≡◌};
ghost use Rattle.base_md5.specs.Md5.{initial};

// The words A, B, C and D.
#[derive(Clone, Copy)]
pub struct Digest {
    pub a: u32,
    pub b: u32,
    pub c: u32,
    pub d: u32,
}

impl Digest {
    pub const A: u32 = 0x67452301;

    pub const B: u32 = 0xefcdab89;

    pub const C: u32 = 0x98badcfe;

    pub const D: u32 = 0x10325476;

    // The four words from which the digest starts.
    pub fn initial() -> Digest
        ensures { result ≡ initial }
    {
        Digest {
            a: Digest::A,
            b: Digest::B,
            c: Digest::C,
            d: Digest::D,
        }
    }
}
