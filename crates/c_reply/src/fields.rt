// The fields of a reply, written at their places.
ghost use Rattle.std.specs.Prelude.{◌≡◌, ◌+◌, ◌*◌, ◌<◌, length, ◌++◌};
ghost use Rattle.base_number.specs.Number.{le, replaced_at};
ghost use Rattle.base_md5.specs.Md5.{bytes_of};
ghost use Rattle.c_reply.specs.Reply.{field_bytes, kind_of};
ghost use Rattle.machine.specs.Etags.{count_of, digest_of};
ghost use Rattle.call_contract.specs.Answers.{etag_of};
ghost use Rattle.c_reply.specs.Fields.{bytes_of_fields};

use base_md5::words::Digest;
use call_types::Etag;

// The fields of a reply; those that are not an answer's own are 0.
#[derive(Clone, Copy)]
pub struct Fields {
    pub created: u64,
    pub size: u32,
    pub upload: u32,
    pub records: u32,
    pub bytes: u32,
    pub etag: Etag,
    pub more: bool,
    pub pairs: u16,
    pub pairsize: u16,
}

impl Fields {
    // The fields of an answer that tells nothing.
    pub const NONE: Fields = Fields {
        created: 0,
        size: 0,
        upload: 0,
        records: 0,
        bytes: 0,
        etag: Etag::Absent,
        more: false,
        pairs: 0,
        pairsize: 0,
    };
}

// Two bytes, as one number.
fn pair(low: u8, high: u8) -> u16
    ensures { (result ≡ low + 256 * high) × (low < 256) × (high < 256) }
{
    base_number::wide(low) + 256 * base_number::wide(high)
}

// How many pairs were written, and how many bytes they are.
fn write_pairs(reply: &mut [u8], pairs: u16, pairsize: u16)
    requires { length reply.old ≡ 48 }
    ensures { reply.new ≡ replaced_at reply.old 44 (le 2 pairs ++ le 2 pairsize) 4 }
{
    base_number::put_u16(reply, 44, pairs);
    base_number::put_u16(reply, 46, pairsize);
}

// The fields of a reply, each at its offset.
fn write_fields(
    reply: &mut [u8],
    created: u64,
    size: u32,
    upload: u32,
    records: u32,
    bytes: u32,
    kind: u8,
    more: u8,
    count: u16,
    digest: Digest,
    pairs: u16,
    pairsize: u16,
)
    requires { length reply.old ≡ 48 }
    ensures { reply.new
        ≡ field_bytes created size upload records bytes kind more count (bytes_of digest) pairs pairsize }
{
    base_number::put_u64(reply, 0, created);
    base_number::put_u32(reply, 8, size);
    base_number::put_u32(reply, 12, upload);
    base_number::put_u32(reply, 16, records);
    base_number::put_u32(reply, 20, bytes);
    base_number::put_u16(reply, 24, pair(kind, more));
    base_number::put_u16(reply, 26, count);
    base_md5::put(reply, 28, digest);
    write_pairs(reply, pairs, pairsize);
}

// An etag's kind, count and digest.
fn etag_fields(etag: Etag) -> (u8, u16, Digest)
    ensures kind { result.0 ≡ kind_of (etag_of etag) }
    ensures count { result.1 ≡ count_of (etag_of etag) }
    ensures digest { bytes_of result.2 ≡ digest_of (etag_of etag) }
{
    match etag {
        Etag::Absent => (
            0,
            0,
            Digest {
                a: 0,
                b: 0,
                c: 0,
                d: 0,
            },
        ),
        Etag::Plain(digest) => (1, 0, digest),
        Etag::Joined(digest, count) => (2, count, digest),
    }
}

// The fields over the reply.
pub(crate) fn write(reply: &mut [u8], f: Fields)
    requires { length reply.old ≡ 48 }
    ensures { reply.new ≡ bytes_of_fields f }
{
    let (kind, count, digest) = etag_fields(f.etag);
    write_fields(
        reply,
        f.created,
        f.size,
        f.upload,
        f.records,
        f.bytes,
        kind,
        u8::from(f.more),
        count,
        digest,
        f.pairs,
        f.pairsize,
    )
}
