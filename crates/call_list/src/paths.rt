// LIST's test of a path.
ghost use Rattle.std.specs.Prelude.{◌≡◌, ◌+◌, ◌≤◌, length, drop};
ghost use Rattle.mem_row.specs.Row.{head_at, path_at, span};
ghost use Rattle.machine.specs.Steps.{is_listed};

// Whether LIST has the path.
fn has_path(path: &[u8], prefix: &[u8], suffix: &[u8]) -> bool
    ensures { result ≡ is_listed prefix.now suffix.now path.now }
{
    if !base_order::begins_with(path, prefix) {
        return false;
    }
    let n = prefix.len();
    base_order::ends_with(&path[n..], suffix)
}

// Whether LIST has the path of the row at `at`.
pub(crate) fn has_row(tables: &[u8], at: usize, prefix: &[u8], suffix: &[u8]) -> bool
    requires { at + span (head_at (drop at tables.now)) ≤ length tables.now }
    ensures { result
        ≡ is_listed prefix.now suffix.now (path_at (drop at tables.now)) }
{
    let h = mem_row::read_head(tables, at);
    let from = at + mem_row::HEAD_LENGTH;
    let to = from + h.pathlen as usize;
    has_path(&tables[from..to], prefix, suffix)
}
