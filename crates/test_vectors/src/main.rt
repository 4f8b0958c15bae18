// The digests of RFC 1321's published vectors (A.5), and of data with lengths around the edges of a block. The file stdout was made by another
// MD5, with tools/vectors.py.
#![tactic(auto)]

ghost use Rattle.std.specs.Prelude.{◌≡◌, length};

use base_md5::words::Digest;
use std::io;

// A digest in hexadecimal, and a byte after it.
fn write(rt: &impl Print, v: Digest, end: u8) -> io::Result<()> {
    let mut text = [end; 33];
    base_text::put_digest(&mut text, 0, v.a, v.b, v.c, v.d);
    rt.write_all(&text)
}

// The digest of data on a line, and the same by crate `bench_md5_bytes`.
fn line(rt: &impl Print, data: &[u8]) -> io::Result<()> {
    write(rt, base_md5::digest(data), b' ')?;
    write(rt, bench_md5_bytes::digest(data), b'\n')
}

// RFC 1321's seven.
fn published(rt: &impl Print) -> io::Result<()> {
    let texts = [
        b"".as_slice(),
        b"a".as_slice(),
        b"abc".as_slice(),
        b"message digest".as_slice(),
        b"abcdefghijklmnopqrstuvwxyz".as_slice(),
        b"ABCDEFGHIJKLMNOPQRSTUVWXYZabcdefghijklmnopqrstuvwxyz0123456789".as_slice(),
        b"12345678901234567890123456789012345678901234567890123456789012345678901234567890".as_slice(),
    ];
    for text in texts {
        line(rt, text)?;
    }
    Ok(())
}

// A million bytes. The contract spares the caller's proof the length of the list, which is too long to compute.
fn room() -> [u8; 1000000]
    ensures { length result ≡ 1000000 }
{
    [0u8; 1000000]
}

// Byte i is 7 * i + 3 modulo 251.
fn fill(b: &mut [u8]) {
    let mut x: u32 = 3;
    for place in b.iter_mut() {
        *place = x as u8;
        x = (x + 7) % 251;
    }
}

// The digest of the first n bytes.
fn front(rt: &impl Print, data: &[u8], n: usize) -> io::Result<()> {
    if n <= data.len() {
        line(rt, &data[..n])?;
    }
    Ok(())
}

// Lengths at which the padding or the count of blocks changes, and many blocks.
fn edges(rt: &impl Print, data: &[u8]) -> io::Result<()> {
    for n in [55, 56, 63, 64, 65, 119, 120] {
        front(rt, data, n)?;
    }
    line(rt, data)
}

fn main(rt: HostRuntime) -> io::Result<()> {
    published(&rt)?;
    let mut data = room();
    fill(&mut data);
    edges(&rt, &data)
}
