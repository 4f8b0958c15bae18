// How many objects, uploads, parts and rows there are.
ghost use Rattle.mem_layout.specs.Memory.{state_of};
ghost use Rattle.mem_find.specs.Counts.{CountsOf};

use crate::memory::WholeMemory;

// How many objects, open uploads, parts over all uploads, and rows in all.
#[derive(Clone, Copy)]
pub struct RowCounts {
    pub objects: usize,
    pub uploads: usize,
    pub parts: usize,
    pub rows: usize,
}

impl WholeMemory<'_> {
    // The counts, as the header has them.
    pub fn counts(self) -> RowCounts
        ensures { CountsOf (state_of self.entry.tables.now self.entry.arena.now) result }
    {
        let header = mem_layout::headers::read_header(self.tables);
        let objects = header.objects as usize;
        let uploads = header.uploads as usize;
        let parts = header.parts as usize;
        RowCounts {
            objects,
            uploads,
            parts,
            rows: objects + (uploads + parts),
        }
    }
}
