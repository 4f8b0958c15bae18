// An input cut into its lines, as it comes, piece by piece.
#![tactic(auto)]

ghost use Rattle.std.specs.Prelude.{◌+◌, ◌≤◌, [], ◌∷◌, ◌++◌, length};
ghost use Rattle.machine.specs.Names.{Bytes};
ghost use Rattle.recording_split.specs.Held.{Holds, Stepped, Within};

// A line is finished, and the bytes after it begin at `next`; or the bytes have ended. `held` counts the bytes that the
// buffer holds of the line, and is one more than the buffer has where the line is longer.
#[derive(Clone, Copy)]
pub enum LineStep {
    Line { held: usize, next: usize },
    More { held: usize },
}

// One more byte of the line.
fn keep(line: &mut [u8], held: usize, b: u8) -> usize
    requires { (length line.old ≤ 4096) × (held ≤ length line.old + 1) }
    ensures { ((l : Bytes) → Holds line.old held l → Holds line.new result (l ++ b ∷ []))
        × (result ≤ length line.old + 1) }
{
    if line.len() < held {
        return held;
    }
    if line.len() == held {
        return held + 1;
    }
    line[held] = b;
    held + 1
}

// The bytes of `s` from `at` on, up to the end of the line of which `line` holds what came before.
pub fn next_line(s: &[u8], at: usize, line: &mut [u8], held: usize) -> LineStep
    requires { (length line.old ≤ 4096) × (held ≤ length line.old + 1) }
    ensures { ((l : Bytes) → Holds line.old held l → Stepped s.now at l line.new result)
        × Within (length s.now) at (length line.old) result }
{
    let mut n = held;
    for i in at..s.len() {
        let b = s[i];
        if b == 10 {
            return LineStep::Line {
                held: n,
                next: i + 1,
            };
        }
        n = keep(line, n, b);
    }
    LineStep::More { held: n }
}
