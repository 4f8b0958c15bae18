// What stands at a row.
ghost use Rattle.std.specs.Prelude.{◌≡◌, ◌+◌, ◌≤◌, length, drop};
ghost use Rattle.mem_row.specs.Row.{span, head_at};
ghost use Rattle.mem_find.specs.RowPlaces.{IsRow, HeadAt};
ghost use Rattle.mem_find.specs.Known.{rows_in};

use crate::RowPlace;
use crate::memory::WholeMemory;
use mem_row::Head;

impl WholeMemory<'_> {
    // The head of the row at a place.
    pub fn row_head(self, here: RowPlace) -> Head
        requires { IsRow (rows_in self.tables.now self.arena.now) here }
        ensures read { result ≡ head_at (drop here.at self.entry.tables.now) }
        ensures row { HeadAt (rows_in self.entry.tables.now self.entry.arena.now) here result }
        ensures inside { (here.at + span result ≤ length self.entry.tables.now)
            × (here.base + result.size ≤ length self.entry.arena.now) }
    {
        mem_row::read_head(self.tables, here.at)
    }
}
