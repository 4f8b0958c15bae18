// Readers of whole memory: where an object stands, how many rows there are, a row's head, and the lengths of its pairs;
// and what the readers of uploads answer.
#![tactic(auto)]

pub mod counts;
pub mod memory;
pub mod objects;
pub mod row_pairs;
pub mod rows;

ghost use Rattle.std.specs.Prelude.{◌≡◌};
ghost use Rattle.mem_find.specs.Places.{lookup_of, place_of};

pub use memory::WholeMemory;
pub use row_pairs::pairs_size;

// What a search found: whether it is there, the number of its row, where that begins in the tables, and where its data
// begin in the arena. Where it is not there, the places are those of the row before which it would stand.
#[derive(Clone, Copy)]
pub struct Lookup {
    pub found: bool,
    pub row: usize,
    pub at: usize,
    pub base: usize,
}

// What the searches for two paths found.
#[derive(Clone, Copy)]
pub struct TwoLookups {
    pub first: Lookup,
    pub second: Lookup,
}

// The place of a row: its number among the rows, counted from 0, where it begins in the tables, and where its data
// begin in the arena.
#[derive(Clone, Copy)]
pub struct RowPlace {
    pub row: usize,
    pub at: usize,
    pub base: usize,
}

// How many parts an upload has, and the place of the row after them.
#[derive(Clone, Copy)]
pub struct PassedParts {
    pub count: usize,
    pub next: RowPlace,
}

// A lookup that answers a place, and whether what was looked for stands there.
pub fn lookup_at(found: bool, here: RowPlace) -> Lookup
    ensures { result ≡ lookup_of found here }
{
    Lookup {
        found,
        row: here.row,
        at: here.at,
        base: here.base,
    }
}

// The place that a lookup answers.
pub fn place_of(l: Lookup) -> RowPlace
    ensures { result ≡ place_of l }
{
    RowPlace {
        row: l.row,
        at: l.at,
        base: l.base,
    }
}
