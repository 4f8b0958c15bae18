// The types in which the store takes its arguments and answers.
#![tactic(auto)]

ghost use Rattle.std.specs.Prelude.{◌≡◌};
ghost use Rattle.call_types.specs.Numbers.{number_of};

use base_md5::words::Digest;

// Seconds since the start of 1970.
#[derive(Clone, Copy)]
pub struct Stamp(pub u64);

// From 1; never given twice.
#[derive(Clone, Copy)]
pub struct UploadNumber(pub u32);

// 1 to 10,000.
#[derive(Clone, Copy)]
pub struct PartNumber(pub u16);

// Absent, the digest of the data, or the digest of the parts' digests with the number of parts.
#[derive(Clone, Copy)]
pub enum Etag {
    Absent,
    Plain(Digest),
    Joined(Digest, u16),
}

// What GET and HEAD say of an object: its length, stamp and etag; how many pairs they wrote to the second answer
// buffer, and how many bytes these are.
#[derive(Clone, Copy)]
pub struct Metadata {
    pub length: u32,
    pub created: Stamp,
    pub etag: Etag,
    pub pairs: u16,
    pub bytes: u16,
}

// What LIST and UPLOADS wrote.
#[derive(Clone, Copy)]
pub struct Counts {
    pub records: u32,
    pub bytes: u32,
}

// How many uploads SWEEP aborted, and whether more are due.
#[derive(Clone, Copy)]
pub struct Sweep {
    pub count: u32,
    pub more: bool,
}

// Where a name stands in a buffer of names: its first byte, from 0, and how many bytes it has.
#[derive(Clone, Copy)]
pub struct Place {
    pub start: u32,
    pub len: u32,
}

// Why a call is refused: document 01's refusals in checking order, then those of document 02.
#[derive(Clone, Copy, PartialEq, Eq)]
pub enum Refusal {
    NotAStore,
    BadRequest,
    NotFound,
    TableFull,
    ArenaFull,
    NumbersUsedUp,
    BufferShort,
    TooMany,
    NotALine,
}

// The number of a refusal.
impl From<Refusal> for u8 {
    ghost from_gives = { λ r n. n ≡ number_of r };

    fn from(refusal: Refusal) -> u8 {
        match refusal {
            Refusal::NotAStore => 1,
            Refusal::BadRequest => 2,
            Refusal::NotFound => 3,
            Refusal::TableFull => 4,
            Refusal::ArenaFull => 5,
            Refusal::NumbersUsedUp => 6,
            Refusal::BufferShort => 7,
            Refusal::TooMany => 8,
            Refusal::NotALine => 9,
        }
    }
}
