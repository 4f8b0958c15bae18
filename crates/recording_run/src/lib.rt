// An input replayed as it comes, piece by piece, in bounded memory.
#![tactic(auto)]

ghost use Rattle.std.specs.Prelude.{◌≡◌, ◌++◌, ◌∷◌, [], ℕ, ◌+◌, ◌*◌, ◌≤◌, ◌<◌, length, take};
ghost use Rattle.machine.specs.Names.{Bytes};
ghost use Rattle.machine.specs.State.{State};
ghost use Rattle.call_contract.specs.Made.{memory};
ghost use Rattle.recording.specs.Parse.{entry_of};
ghost use Rattle.recording_split.specs.Held.{Holds};
ghost use Rattle.recording_run.specs.Run.{Store, LineRun, PieceRun, InputRun};

use call_types::Refusal;
use recording_split::LineStep;

// The line of which the buffer `line` holds `held` bytes, as the splitter leaves them: it is replayed, and its result answered.
pub fn held_line(
    tables: &mut [u8],
    arena: &mut [u8],
    answer: &mut [u8],
    pairs: &mut [u8],
    line: &[u8],
    held: usize,
) -> u32
    requires { length line.now ≡ 4096 }
    ensures { ((l : Bytes) (A size : ℕ) (s : State) → Holds line.now held l
        → length answer.old ≡ size → length pairs.old ≡ size
        → Store A s (memory tables.old arena.old)
        → LineRun A size s (entry_of l) result (memory tables.new arena.new)) × (result < 10) }
{
    if 4096 < held {
        return c_reply::done(Err(recording_line::refusal(tables, arena, Refusal::NotALine)));
    }
    let mut reply = [0u8; 48];
    recording_replay::replay_line(tables, arena, &line[..held], answer, pairs, &mut reply)
}

// A result and a line feed, after the first k bytes of `out`.
fn print_result(out: &mut [u8], k: usize, number: u32)
    requires { (k + 2 ≤ length out.old) × (number < 10) }
    ensures { take (k + 2) out.new ≡ take k out.old ++ (48 + number) ∷ 10 ∷ [] }
{
    out[k] = 48 + number as u8;
    out[k + 1] = 10;
}

// How much of a line is held after a piece, and how many bytes of results were written.
#[derive(Clone, Copy)]
pub struct Fed {
    pub held: usize,
    pub written: usize,
}

// The lines that a piece of at most 65,536 bytes finishes, each replayed, and its result printed to the front of `out`; what the piece leaves begun stays in `line`.
pub fn replay_piece(
    tables: &mut [u8],
    arena: &mut [u8],
    answer: &mut [u8],
    pairs: &mut [u8],
    line: &mut [u8],
    held: usize,
    piece: &[u8],
    out: &mut [u8],
) -> Fed
    requires { (length line.old ≡ 4096) × (held ≤ 4097) × (2 * length piece.now ≤ length out.old)
        × (length piece.now ≤ 65536) }
    ensures { ((l : Bytes) (A size : ℕ) (s : State) → Holds line.old held l
        → length answer.old ≡ size → length pairs.old ≡ size
        → Store A s (memory tables.old arena.old)
        → PieceRun A size s l piece.now result line.new out.new (memory tables.new arena.new))
        × (result.held ≤ 4097) × (result.written ≤ 2 * length piece.now) }
{
    let mut n = held;
    let mut k: usize = 0;
    let mut at: usize = 0;
    while at < piece.len() {
        match recording_split::next_line(piece, at, line, n) {
            LineStep::Line { held: full, next } => {
                let result = held_line(tables, arena, answer, pairs, line, full);
                print_result(out, k, result);
                k += 2;
                n = 0;
                at = next;
            }
            LineStep::More { held: rest } => {
                return Fed {
                    held: rest,
                    written: k,
                };
            }
        }
    }
    Fed {
        held: n,
        written: k,
    }
}

// A whole input of at most 65,536 bytes: the results of its lines, printed to the front of `out`. Answers how many bytes they are.
pub fn replay_input(
    tables: &mut [u8],
    arena: &mut [u8],
    answer: &mut [u8],
    pairs: &mut [u8],
    line: &mut [u8],
    input: &[u8],
    out: &mut [u8],
) -> usize
    requires { (length line.old ≡ 4096) × (2 * length input.now + 2 ≤ length out.old) × (length input.now ≤ 65536) }
    ensures { (A size : ℕ) (s : State)
        → length answer.old ≡ size → length pairs.old ≡ size
        → Store A s (memory tables.old arena.old)
        → InputRun A size s input.now result out.new (memory tables.new arena.new) }
{
    let fed = replay_piece(tables, arena, answer, pairs, line, 0, input, out);
    let n = fed.written;
    let held = fed.held;
    if held == 0 {
        return n;
    }
    let result = held_line(tables, arena, answer, pairs, line, held);
    print_result(out, n, result);
    n + 2
}
