// What a call answered, printed after its line.
use crate::words::front_len;
use base_md5::words::Digest;
use call_types::{Counts, Etag, Metadata, Refusal, Stamp, Sweep, UploadNumber};
use std::{fmt, io};

// Bytes that need not be text.
pub fn print(rt: &impl Print, bytes: &[u8]) -> io::Result<()> {
    rt.write_all(bytes)
}

// What an answer tells, to be printed after the number 0.
#[derive(Clone, Copy)]
pub struct Told<T>(pub T);

// What GET and HEAD tell; the counts of pairs where they are asked for.
#[derive(Clone, Copy)]
pub struct Found {
    pub metadata: Metadata,
    pub paired: bool,
}

// The digest's 32 hexadecimal digits, as LIST writes them.
impl fmt::Display for Told<Digest> {
    fn fmt<W: fmt::Write>(&self, f: &mut fmt::Formatter<W>) -> fmt::Result {
        let Digest { a, b, c, d } = self.0;
        let mut text = [0u8; 32];
        base_text::put_digest(&mut text, 0, a, b, c, d);
        for digit in text {
            f.write_char(char::from(digit))?;
        }
        Ok(())
    }
}

// Nothing but the 0.
impl fmt::Display for Told<()> {
    fn fmt<W: fmt::Write>(&self, _f: &mut fmt::Formatter<W>) -> fmt::Result {
        Ok(())
    }
}

// GET and HEAD.
impl fmt::Display for Told<Found> {
    fn fmt<W: fmt::Write>(&self, f: &mut fmt::Formatter<W>) -> fmt::Result {
        let Found { metadata, paired } = self.0;
        let Stamp(created) = metadata.created;
        write!(
            f,
            ", length {}, created {created}{}",
            metadata.length,
            Told(metadata.etag)
        )?;
        if paired {
            write!(f, ", pairs {}, bytes {}", metadata.pairs, metadata.bytes)?;
        }
        Ok(())
    }
}

// PART.
impl fmt::Display for Told<Etag> {
    fn fmt<W: fmt::Write>(&self, f: &mut fmt::Formatter<W>) -> fmt::Result {
        match self.0 {
            Etag::Absent => f.write_str(", etag absent"),
            Etag::Plain(digest) => write!(f, ", etag {}", Told(digest)),
            Etag::Joined(digest, n) => write!(f, ", etag {}-{n}", Told(digest)),
        }
    }
}

// INITIATE.
impl fmt::Display for Told<UploadNumber> {
    fn fmt<W: fmt::Write>(&self, f: &mut fmt::Formatter<W>) -> fmt::Result {
        let UploadNumber(number) = self.0;
        write!(f, ", upload {number}")
    }
}

// LIST and UPLOADS.
impl fmt::Display for Told<Counts> {
    fn fmt<W: fmt::Write>(&self, f: &mut fmt::Formatter<W>) -> fmt::Result {
        let Counts { records, bytes } = self.0;
        write!(f, ", records {records}, bytes {bytes}")
    }
}

// SWEEP.
impl fmt::Display for Told<Sweep> {
    fn fmt<W: fmt::Write>(&self, f: &mut fmt::Formatter<W>) -> fmt::Result {
        let Sweep { count, more } = self.0;
        write!(f, ", swept {count}, more {}", u8::from(more))
    }
}

// 0 and what the answer tells, or the refusal's number.
pub fn print_answer<T: Copy>(rt: &impl Print, a: Result<T, Refusal>) -> io::Result<()>
where
    Told<T>: fmt::Display,
{
    match a {
        Ok(told) => print!(rt; ": 0{}", Told(told)),
        Err(refusal) => print!(rt; ": {}", u8::from(refusal)),
    }
}

// Each byte in decimal.
fn print_each(rt: &impl Print, bytes: &[u8]) -> io::Result<()> {
    for b in bytes {
        print!(rt; " {b}")?;
    }
    Ok(())
}

// An answer buffer, on a line of its own: as text, or each byte in decimal.
pub fn print_buffer(rt: &impl Print, bytes: &[u8], text: bool) -> io::Result<()> {
    print(rt, b"\n   ")?;
    if text {
        print(rt, b" ")?;
        print(rt, bytes)
    } else {
        print_each(rt, bytes)
    }
}

// The front of memory, as long as the line says.
pub fn print_front(rt: &impl Print, memory: &[u8], line: &[u8]) -> io::Result<()> {
    let n = front_len(true, line, 0, memory);
    print_buffer(rt, &memory[..n], false)
}
