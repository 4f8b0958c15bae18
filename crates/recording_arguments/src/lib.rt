// The arguments of each verb, read from a place of a line on.
#![tactic(auto)]

ghost use Rattle.std.specs.Prelude.{◌≡◌, ◌*◌, ◌≤◌, length, drop};
ghost use Rattle.recording.specs.Read.{both, map_read};
ghost use Rattle.recording.specs.Parse.{number, numbers, string, pairs as pair_list};
ghost use Rattle.recording_lists.specs.Packed.{packed, packed_pairs};
ghost use Rattle.recording_arguments.specs.Meant.{copy_meant, CopyFits, map_last, put_meant, PutFits, map_second, commit_meant, commit_length, list_meant, ListFits, initiate_meant, InitiateFits, part_meant, part_length};

use recording_read::Field;

// COPY's stamp, and how long its two paths are.
#[derive(Clone, Copy)]
pub struct CopyArguments {
    pub stamp: u64,
    pub source: usize,
    pub destination: usize,
}

// A stamp and two paths, each after one space; the paths are decoded to the front of a slice each.
pub fn read_copy(
    s: &[u8],
    at: usize,
    source: &mut [u8],
    destination: &mut [u8],
) -> Option<Field<CopyArguments>>
    requires { (length s.now ≤ 2 * length source.old) × (length s.now ≤ 2 * length destination.old) }
    ensures { (copy_meant s.now source.new destination.new result
        ≡ both number (both string string) (drop at s.now))
        × CopyFits result (length source.old) (length destination.old) }
{
    let stamp = recording_read::number_field(s, at)?;
    let from = recording_read::string_field(s, stamp.next, source)?;
    let to = recording_read::string_field(s, from.next, destination)?;
    Some(Field {
        value: CopyArguments {
            stamp: stamp.value,
            source: from.value,
            destination: to.value,
        },
        next: to.next,
    })
}

// PUT's stamp, and how long its path, data and pairs are.
#[derive(Clone, Copy)]
pub struct PutArguments {
    pub stamp: u64,
    pub path: usize,
    pub content: usize,
    pub pairs: usize,
}

// A stamp, a path and data, each after one space, and pairs.
pub fn read_put(
    s: &[u8],
    at: usize,
    path: &mut [u8],
    content: &mut [u8],
    pairs: &mut [u8],
) -> Option<Field<PutArguments>>
    requires { (length s.now ≤ 2 * length path.old) × (length s.now ≤ 2 * length content.old) × (length s.now ≤ 2 * length pairs.old) }
    ensures { (put_meant s.now path.new content.new pairs.new result
        ≡ map_read (map_last packed_pairs) (both number (both string (both string pair_list))) (drop at s.now))
        × PutFits result (length path.old) (length content.old) (length pairs.old) }
{
    let three = read_copy(s, at, path, content)?;
    let rest = recording_lists::read_pairs(s, three.next, pairs)?;
    Some(Field {
        value: PutArguments {
            stamp: three.value.stamp,
            path: three.value.source,
            content: three.value.destination,
            pairs: rest.value,
        },
        next: rest.next,
    })
}

// COMMIT's upload number, and how long its list is.
#[derive(Clone, Copy)]
pub struct CommitArguments {
    pub upload: u64,
    pub list: usize,
}

// An upload number and a part list, each after one space.
pub fn read_commit(s: &[u8], at: usize, list: &mut [u8]) -> Option<Field<CommitArguments>>
    requires { length s.now ≤ length list.old }
    ensures { (commit_meant s.now list.new result ≡ map_read (map_second packed) (both number numbers) (drop at s.now))
        × (commit_length result ≤ length list.old) }
{
    let upload = recording_read::number_field(s, at)?;
    let numbers = recording_lists::numbers_field(s, upload.next, list)?;
    Some(Field {
        value: CommitArguments {
            upload: upload.value,
            list: numbers.value,
        },
        next: numbers.next,
    })
}

// How long LIST's prefix and suffix are.
#[derive(Clone, Copy)]
pub struct ListArguments {
    pub prefix: usize,
    pub suffix: usize,
}

// Two strings, each after one space, decoded to the front of a slice each.
pub fn read_list(
    s: &[u8],
    at: usize,
    prefix: &mut [u8],
    suffix: &mut [u8],
) -> Option<Field<ListArguments>>
    requires { (length s.now ≤ 2 * length prefix.old) × (length s.now ≤ 2 * length suffix.old) }
    ensures { (list_meant s.now prefix.new suffix.new result ≡ both string string (drop at s.now))
        × ListFits result (length prefix.old) (length suffix.old) }
{
    let first = recording_read::string_field(s, at, prefix)?;
    let last = recording_read::string_field(s, first.next, suffix)?;
    Some(Field {
        value: ListArguments {
            prefix: first.value,
            suffix: last.value,
        },
        next: last.next,
    })
}

// INITIATE's stamp, and how long its path and pairs are.
#[derive(Clone, Copy)]
pub struct InitiateArguments {
    pub stamp: u64,
    pub path: usize,
    pub pairs: usize,
}

// A stamp and a path, each after one space, and pairs.
pub fn read_initiate(
    s: &[u8],
    at: usize,
    path: &mut [u8],
    pairs: &mut [u8],
) -> Option<Field<InitiateArguments>>
    requires { (length s.now ≤ 2 * length path.old) × (length s.now ≤ 2 * length pairs.old) }
    ensures { (initiate_meant s.now path.new pairs.new result
        ≡ map_read (map_second (map_second packed_pairs)) (both number (both string pair_list)) (drop at s.now))
        × InitiateFits result (length path.old) (length pairs.old) }
{
    let stamp = recording_read::number_field(s, at)?;
    let name = recording_read::string_field(s, stamp.next, path)?;
    let list = recording_lists::read_pairs(s, name.next, pairs)?;
    Some(Field {
        value: InitiateArguments {
            stamp: stamp.value,
            path: name.value,
            pairs: list.value,
        },
        next: list.next,
    })
}

// PART's upload number and part number, and how long its data is.
#[derive(Clone, Copy)]
pub struct PartArguments {
    pub upload: u64,
    pub number: u64,
    pub content: usize,
}

// Two numbers and data, each after one space.
pub fn read_part(s: &[u8], at: usize, content: &mut [u8]) -> Option<Field<PartArguments>>
    requires { length s.now ≤ 2 * length content.old }
    ensures { (part_meant s.now content.new result ≡ both number (both number string) (drop at s.now))
        × (part_length result ≤ length content.old) }
{
    let upload = recording_read::number_field(s, at)?;
    let number = recording_read::number_field(s, upload.next)?;
    let bytes = recording_read::string_field(s, number.next, content)?;
    Some(Field {
        value: PartArguments {
            upload: upload.value,
            number: number.value,
            content: bytes.value,
        },
        next: bytes.next,
    })
}
