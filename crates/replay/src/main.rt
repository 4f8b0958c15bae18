// Replays the recording on standard input over a fresh store, with an arena and answer buffers of 65,536 bytes each, and prints the result
// number of each line on a line, as it goes. It holds a piece of the input and the front of one line: a line of any length is one 9.
#![tactic(auto)]

ghost use Rattle.std.specs.Prelude.{◌≡◌, ◌*◌, ◌≤◌, length, IfOk};

use std::io;
use std::io::Read;

// So many bytes. The contract spares the caller's proof the length of the list, which is too long to compute.
fn room<const N: usize>() -> [u8; N]
    ensures { length result ≡ N }
{
    [0u8; N]
}

// The lines that a piece finishes, each replayed, and their results printed. Answers how much of the next line is held.
fn feed(
    rt: &impl Print,
    tables: &mut [u8],
    arena: &mut [u8],
    answer: &mut [u8],
    pairs: &mut [u8],
    line: &mut [u8],
    held: usize,
    piece: &[u8],
    out: &mut [u8],
) -> io::Result<usize>
    requires { (length line.old ≡ 4096) × (held ≤ 4097) × (2 * length piece.now ≤ length out.old)
        × (length piece.now ≤ 65536) }
    ensures { IfOk result (λ kept. kept ≤ 4097) }
{
    let fed = recording_run::replay_piece(tables, arena, answer, pairs, line, held, piece, out);
    let n = fed.written;
    rt.write_all(&out[..n])?;
    Ok(fed.held)
}

// The line that the input's end finishes, if bytes of it are held.
fn last_line(
    rt: &impl Print,
    tables: &mut [u8],
    arena: &mut [u8],
    answer: &mut [u8],
    pairs: &mut [u8],
    line: &[u8],
    held: usize,
) -> io::Result<()>
    requires { length line.now ≡ 4096 }
{
    if held == 0 {
        return Ok(());
    }
    let result = recording_run::held_line(tables, arena, answer, pairs, line, held);
    println!(rt; "{result}")
}

// A proved loop has to end, and nothing says that the input does: the loop takes a number of turns that no run uses up.
fn each_piece(
    rt: &(impl Input + Print),
    tables: &mut [u8],
    arena: &mut [u8],
    answer: &mut [u8],
    pairs: &mut [u8],
    line: &mut [u8],
    piece: &mut [u8],
    out: &mut [u8],
) -> io::Result<()>
    requires { (length line.old ≡ 4096) × (2 * length piece.old ≤ length out.old) × (length piece.old ≤ 65536) }
{
    let mut input = rt.reader();
    let mut held: usize = 0;
    for _ in 0..u64::MAX {
        let n = input.read(piece)?;
        if n == 0 {
            return last_line(rt, tables, arena, answer, pairs, line, held);
        }
        held = feed(
            rt,
            tables,
            arena,
            answer,
            pairs,
            line,
            held,
            &piece[..n],
            out,
        )?;
    }
    Ok(())
}

fn main(rt: HostRuntime) -> io::Result<()> {
    let mut tables = room::<58194>();
    let mut arena = room::<65536>();
    let mut answer = room::<65536>();
    let mut pairs = room::<65536>();
    let mut line = room::<4096>();
    // the results of a piece's lines, two bytes each, have room in `out`
    let mut piece = room::<32768>();
    let mut out = room::<65536>();
    let _ = call_fresh::fresh(&mut tables, &mut arena);
    each_piece(
        &rt,
        &mut tables,
        &mut arena,
        &mut answer,
        &mut pairs,
        &mut line,
        &mut piece,
        &mut out,
    )
}
