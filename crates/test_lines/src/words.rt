// The words that a line begins with.
ghost use Rattle.std.specs.Prelude.{◌≤◌, length};
ghost use Rattle.test_lines.specs.Counts.{IsPrefixLen};

use crate::fields::{field, number};

// What a line asks for.
#[derive(Clone, Copy, PartialEq, Eq)]
pub enum Word {
    Tables,
    Arena,
    Head,
    Get,
    List,
    Uploads,
    Delete,
    Fresh,
    Put,
    Copy,
    Initiate,
    Part,
    Commit,
    Abort,
    DeleteObjects,
    Sweep,
}

impl Word {
    // The word that the line begins with. A line that begins with another is a comment.
    pub fn of(line: &[u8]) -> Option<Word> {
        match field(line, 0) {
            b"TABLES" => Some(Word::Tables),
            b"ARENA" => Some(Word::Arena),
            b"HEAD" => Some(Word::Head),
            b"GET" => Some(Word::Get),
            b"LIST" => Some(Word::List),
            b"UPLOADS" => Some(Word::Uploads),
            b"DELETE" => Some(Word::Delete),
            b"FRESH" => Some(Word::Fresh),
            b"PUT" => Some(Word::Put),
            b"COPY" => Some(Word::Copy),
            b"INITIATE" => Some(Word::Initiate),
            b"PART" => Some(Word::Part),
            b"COMMIT" => Some(Word::Commit),
            b"ABORT" => Some(Word::Abort),
            b"DELETE_OBJECTS" => Some(Word::DeleteObjects),
            b"SWEEP" => Some(Word::Sweep),
            _ => None,
        }
    }
}

// A length for the front of `space`: the number in field k.
pub fn length_in(line: &[u8], k: usize, space: &[u8]) -> usize
    ensures { IsPrefixLen result space.now }
{
    number(line, k, space.len() as u64) as usize
}

// The same: the line's first number where it gives one, else as it was.
pub fn front_len(given: bool, line: &[u8], before: usize, space: &[u8]) -> usize
    requires { before ≤ length space.now }
    ensures { IsPrefixLen result space.now }
{
    if given {
        return length_in(line, 1, space);
    }
    before
}
