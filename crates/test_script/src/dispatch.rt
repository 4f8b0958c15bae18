// The call that a line says.
use call_types::{Etag, PartNumber, Refusal, Stamp, Sweep, UploadNumber};
use std::io;
use test_lines::answers::{Found, print_answer, print_buffer, print_front};
use test_lines::fields::{Kind, field, list_bytes, number, part_number};
use test_lines::room::room;
use test_lines::words::{Word, front_len, length_in};

// COMMIT of the list that the line says, at most 32 numbers: `list_bytes` asks room for a place, eight bytes, at each entry.
fn commit(tables: &mut [u8], arena: &mut [u8], line: &[u8]) -> Result<(), Refusal> {
    let mut list = [0u8; 70];
    let n = list_bytes(field(line, 2), Kind::PartNumbers, &mut list);
    store::commit(tables, arena, UploadNumber(upload(line)), &list[..n])
}

// The second answer buffer after GET or HEAD, where the line gives one.
fn show_pairs(rt: &impl Print, pairs: &[u8]) -> io::Result<()> {
    if 0 < pairs.len() {
        print_buffer(rt, pairs, false)?;
    }
    Ok(())
}

// GET, and both answer buffers after it, the first as text.
fn get_and_show(
    rt: &impl Print,
    tables: &[u8],
    arena: &[u8],
    path: &[u8],
    answer: &mut [u8],
    pairs: &mut [u8],
) -> io::Result<()> {
    let paired = 0 < pairs.len();
    let a = store::get(tables, arena, path, answer, pairs);
    print_answer(rt, a.map(|metadata| Found { metadata, paired }))?;
    print_buffer(rt, answer, true)?;
    show_pairs(rt, pairs)
}

// HEAD, and the second answer buffer after it.
fn head_and_show(
    rt: &impl Print,
    tables: &[u8],
    arena: &[u8],
    path: &[u8],
    pairs: &mut [u8],
) -> io::Result<()> {
    let paired = 0 < pairs.len();
    let a = store::head(tables, arena, path, pairs);
    print_answer(rt, a.map(|metadata| Found { metadata, paired }))?;
    show_pairs(rt, pairs)
}

// LIST over a buffer of dots as long as the line says, and the buffer after it.
fn list_and_show(rt: &impl Print, tables: &[u8], arena: &[u8], line: &[u8]) -> io::Result<()> {
    let mut space = room::<1024>(b'.');
    let n = front_len(true, line, 0, &space);
    let answer = &mut space[..n];
    print_answer(
        rt,
        store::list(tables, arena, field(line, 2), field(line, 3), answer),
    )?;
    print_buffer(rt, answer, false)
}

// UPLOADS, likewise.
fn uploads_and_show(rt: &impl Print, tables: &[u8], arena: &[u8], line: &[u8]) -> io::Result<()> {
    let mut space = room::<1024>(b'.');
    let n = front_len(true, line, 0, &space);
    let answer = &mut space[..n];
    print_answer(rt, store::uploads(tables, arena, field(line, 2), answer))?;
    print_buffer(rt, answer, false)
}

// GET, over buffers as long as the line says.
fn get_with_buffers(rt: &impl Print, tables: &[u8], arena: &[u8], line: &[u8]) -> io::Result<()> {
    let mut space = room::<1024>(b'.');
    let mut second = room::<1024>(b'.');
    let n = front_len(true, line, 0, &space);
    let m = length_in(line, 3, &second);
    get_and_show(
        rt,
        tables,
        arena,
        field(line, 2),
        &mut space[..n],
        &mut second[..m],
    )
}

// HEAD, over a second buffer as long as the line says.
fn head_with_buffer(rt: &impl Print, tables: &[u8], arena: &[u8], line: &[u8]) -> io::Result<()> {
    let mut second = room::<1024>(b'.');
    let m = length_in(line, 2, &second);
    head_and_show(rt, tables, arena, field(line, 1), &mut second[..m])
}

// PUT, with the pairs that the line says.
fn put(tables: &mut [u8], arena: &mut [u8], line: &[u8]) -> Result<(), Refusal> {
    let mut pairs = room::<1024>(0);
    let m = list_bytes(field(line, 4), Kind::Pairs, &mut pairs);
    let stamp = Stamp(stamp(line));
    store::put(
        tables,
        arena,
        stamp,
        field(line, 2),
        field(line, 3),
        &pairs[..m],
    )
}

fn copy(tables: &mut [u8], arena: &mut [u8], line: &[u8]) -> Result<(), Refusal> {
    let stamp = Stamp(stamp(line));
    store::copy(tables, arena, stamp, field(line, 2), field(line, 3))
}

fn stamp(line: &[u8]) -> u64 {
    number(line, 1, 18446744073709551615)
}

fn upload(line: &[u8]) -> u32 {
    number(line, 1, 4294967295) as u32
}

fn initiate(tables: &mut [u8], arena: &mut [u8], line: &[u8]) -> Result<UploadNumber, Refusal> {
    let mut pairs = room::<1024>(0);
    let m = list_bytes(field(line, 3), Kind::Pairs, &mut pairs);
    store::initiate(
        tables,
        arena,
        Stamp(stamp(line)),
        field(line, 2),
        &pairs[..m],
    )
}

fn part(tables: &mut [u8], arena: &mut [u8], line: &[u8]) -> Result<Etag, Refusal> {
    let number = PartNumber(part_number(field(line, 2)));
    store::part(
        tables,
        arena,
        UploadNumber(upload(line)),
        number,
        field(line, 3),
    )
}

fn sweep(tables: &mut [u8], arena: &mut [u8], line: &[u8]) -> Result<Sweep, Refusal> {
    let most = number(line, 2, 4294967295) as u32;
    store::sweep(tables, arena, Stamp(stamp(line)), most)
}

// DELETE_OBJECTS of the places that the text says, at most 1,002, and the result buffer after it.
fn delete_and_show(
    rt: &impl Print,
    tables: &mut [u8],
    arena: &mut [u8],
    names: &[u8],
    text: &[u8],
    results: &mut [u8],
) -> io::Result<()> {
    let mut places = room::<8016>(0);
    let n = list_bytes(text, Kind::Places, &mut places);
    print_answer(
        rt,
        store::delete_packed(tables, arena, names, &places[..n], results),
    )?;
    print_buffer(rt, results, false)
}

// The same, over a result buffer as long as the line says.
fn delete_objects(
    rt: &impl Print,
    tables: &mut [u8],
    arena: &mut [u8],
    line: &[u8],
) -> io::Result<()> {
    let mut space = room::<1024>(b'.');
    let n = front_len(true, line, 0, &space);
    delete_and_show(
        rt,
        tables,
        arena,
        field(line, 2),
        field(line, 3),
        &mut space[..n],
    )
}

// The call that the word says, with the line's fields; nothing for another word.
pub(crate) fn run(
    rt: &impl Print,
    tables: &mut [u8],
    arena: &mut [u8],
    word: Option<Word>,
    line: &[u8],
) -> io::Result<()> {
    let Some(word) = word else {
        return Ok(());
    };
    match word {
        Word::Tables => print_front(rt, tables, line),
        Word::Arena => print_front(rt, arena, line),
        Word::Head => head_with_buffer(rt, tables, arena, line),
        Word::Get => get_with_buffers(rt, tables, arena, line),
        Word::List => list_and_show(rt, tables, arena, line),
        Word::Uploads => uploads_and_show(rt, tables, arena, line),
        Word::Delete => print_answer(rt, store::delete(tables, arena, field(line, 1))),
        Word::Fresh => print_answer(rt, store::fresh(tables, arena)),
        Word::Put => print_answer(rt, put(tables, arena, line)),
        Word::Copy => print_answer(rt, copy(tables, arena, line)),
        Word::Initiate => print_answer(rt, initiate(tables, arena, line)),
        Word::Part => print_answer(rt, part(tables, arena, line)),
        Word::Commit => print_answer(rt, commit(tables, arena, line)),
        Word::Abort => print_answer(rt, store::abort(tables, arena, UploadNumber(upload(line)))),
        Word::DeleteObjects => delete_objects(rt, tables, arena, line),
        Word::Sweep => print_answer(rt, sweep(tables, arena, line)),
    }
}
