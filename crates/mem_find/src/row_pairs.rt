// The lengths of the pairs in a row, and how many bytes the pairs take.
ghost use Rattle.std.specs.Prelude.{◌≡◌, ◌+◌, ◌≤◌, length, drop};
ghost use Rattle.pairs_stored.specs.Stored.{sum_of};
ghost use Rattle.mem_row.specs.Row.{lengths_at, span_at};

// The lengths of the pairs in the row at `at`: two for each.
pub fn lengths(tables: &[u8], at: usize) -> &[u8]
    requires { at + span_at (drop at tables.now) ≤ length tables.now }
    ensures { result.now ≡ lengths_at (drop at tables.now) }
{
    let h = mem_row::read_head(tables, at);
    let from = at + mem_row::HEAD_LENGTH + h.pathlen as usize;
    let to = at + mem_row::span(h);
    &tables[from..to]
}

// How many bytes of its block are the pairs of the row at `at`.
pub fn pairs_size(tables: &[u8], at: usize) -> usize
    requires { at + span_at (drop at tables.now) ≤ length tables.now }
    ensures { result ≡ sum_of (lengths_at (drop at tables.now)) }
{
    pairs_stored::sum_of(lengths(tables, at))
}
