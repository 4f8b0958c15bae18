// Makes the call that each line of standard input says, over tables and an arena of its own, and prints the line with what it answered.
// The file stdin has the cases of documents 01 and 02; tools/script.py makes the file stdout of it, by a store of Python's own.
//
// A line is a word and its fields, separated by one space; `~` is an empty field:
//   FRESH arena, PUT stamp path data pairs, COPY stamp source destination, DELETE path, HEAD path second, GET buffer path second,
//   LIST buffer prefix suffix, INITIATE stamp path pairs, PART upload number data, COMMIT upload numbers, ABORT upload, UPLOADS buffer prefix,
//   DELETE_OBJECTS buffer names places, SWEEP stamp most,
//   TABLES length and ARENA length, which print so many of the first bytes.
// A list's entries are separated by commas, and `+` there is an odd byte; a place is start:length, and `*n` is n places 0:0; a pair is
// key=value. Pairs may be left out, and so may `second`, the length of the second answer buffer. An arena has
// at most 4,096 bytes, a buffer at most 1,024; it starts as dots. A line that begins with another word is a comment.
#![tactic(auto)]

mod dispatch;

ghost use Rattle.std.specs.Prelude.{◌≤◌, length, IfOk};

use std::io;
use std::io::Read;
use test_lines::room::room;
use test_lines::words::Word;
use test_lines::{answers, fields, words};

// One line, over the first `before` bytes of the arena. Answers how many it is over now.
fn step(
    rt: &impl Print,
    tables: &mut [u8],
    arena: &mut [u8],
    before: usize,
    line: &[u8],
) -> io::Result<usize>
    requires { before ≤ length arena.old }
    ensures { IfOk result (λ n. n ≤ length arena.old) }
{
    let word = Word::of(line);
    let n = words::front_len(word == Some(Word::Fresh), line, before, arena);
    answers::print(rt, line)?;
    dispatch::run(rt, tables, &mut arena[..n], word, line)?;
    answers::print(rt, b"\n")?;
    Ok(n)
}

fn each_line(rt: &impl Print, tables: &mut [u8], arena: &mut [u8], text: &[u8]) -> io::Result<()> {
    let mut n = 0;
    let mut at = 0;
    while at < text.len() {
        let end = fields::find(text, at, b'\n');
        n = step(rt, tables, arena, n, &text[at..end])?;
        at = end + 1;
    }
    Ok(())
}

// What standard input has, as far as there is room. Answers how many bytes.
fn read_all(rt: &impl Input, input: &mut [u8]) -> io::Result<usize>
    ensures { IfOk result (λ n. n ≤ length input.old) }
{
    let mut reader = rt.reader();
    let mut n: usize = 0;
    for _ in 0..input.len() {
        let got = reader.read(&mut input[n..])?;
        if got == 0 {
            return Ok(n);
        }
        n += got;
    }
    Ok(n)
}

fn main(rt: HostRuntime) -> io::Result<()> {
    let mut input = room::<65536>(0);
    let n = read_all(&rt, &mut input)?;
    let mut tables = room::<58194>(0);
    let mut arena = room::<4096>(0);
    each_line(&rt, &mut tables, &mut arena, &input[..n])
}
