// What tables and arena stand for: definitions, and the header.
#![tactic(auto)]

pub mod headers;

// The header's length: the first row stands here.
pub const HEADER_LENGTH: usize = 18;

// The length of the tables: the header, rows of 256 objects and 16 uploads with paths of 128 bytes and 8 pairs, rows of
// 256 parts.
pub const TABLES_LENGTH: usize = 58194;

// The length of the tables of the former layout, which had no pairs.
pub const FORMER_TABLES_LENGTH: usize = 53842;

// The most bytes of an arena.
pub const ARENA_MOST: usize = 1048576;

// The most objects.
pub const OBJECTS_MOST: usize = 256;

// The most open uploads.
pub const UPLOADS_MOST: usize = 16;

// The most parts over all uploads, and of a joined etag.
pub const PARTS_MOST: usize = 256;

// The kind of an object's row with a plain etag.
pub const PLAIN_KIND: u8 = 0;

// The kind of an object's row with a joined etag.
pub const JOINED_KIND: u8 = 1;

// The kind of an upload's row.
pub const UPLOAD_KIND: u8 = 2;

// The kind of a part's row.
pub const PART_KIND: u8 = 3;

// The upload passed last, and its part passed last; 0 for none.
#[derive(Clone, Copy)]
pub struct Mark {
    pub upload: u32,
    pub part: u32,
}

// The arena's length, the number that the next upload gets, and how many objects, uploads and parts there are.
#[derive(Clone, Copy)]
pub struct Header {
    pub arena: u32,
    pub next: u64,
    pub objects: u16,
    pub uploads: u16,
    pub parts: u16,
}
