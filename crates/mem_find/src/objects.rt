// Where an object stands.
ghost use Rattle.std.specs.Prelude.{◌≡◌};
ghost use Rattle.mem_layout.specs.Memory.{state_of};
ghost use Rattle.mem_find.specs.Places.{object_place, Passed};

use crate::memory::WholeMemory;
use crate::{Lookup, RowPlace, TwoLookups, lookup_at, place_of};
use std::cmp::Ordering;

impl WholeMemory<'_> {
    // The place of the object at `path`. While rows have no pairs, the next row begins where the path ends.
    pub fn find_object(self, path: &[u8]) -> Lookup
        ensures { result ≡ object_place (state_of self.entry.tables.now self.entry.arena.now) path.now }
    {
        let tables = self.tables;
        let objects = self.counts().objects;
        let mut at: usize = mem_layout::HEADER_LENGTH;
        let mut base: usize = 0;
        for i in 0..objects {
            let here = RowPlace { row: i, at, base };
            let h = self.row_head(here);
            if h.pairs != 0 {
                return self.find_from(path, here);
            }
            let from = at + mem_row::HEAD_LENGTH;
            let to = from + h.pathlen as usize;
            if !base_order::is_below(&tables[from..to], path) {
                let found = base_order::equal(path, &tables[from..to]);
                return lookup_at(found, here);
            }
            at = to;
            base += h.size as usize;
        }
        lookup_at(
            false,
            RowPlace {
                row: objects,
                at,
                base,
            },
        )
    }

    // The same from a row on, where the paths of all rows before it are below `path`.
    fn find_from(self, path: &[u8], start: RowPlace) -> Lookup
        requires { Passed (state_of self.tables.now self.arena.now) path.now start.row start.at start.base }
        ensures { result ≡ object_place (state_of self.entry.tables.now self.entry.arena.now) path.now }
    {
        let tables = self.tables;
        let objects = self.counts().objects;
        let mut at = start.at;
        let mut base = start.base;
        for i in start.row..objects {
            let here = RowPlace { row: i, at, base };
            let h = self.row_head(here);
            let from = at + mem_row::HEAD_LENGTH;
            let to = from + h.pathlen as usize;
            if !base_order::is_below(&tables[from..to], path) {
                let found = base_order::equal(path, &tables[from..to]);
                return lookup_at(found, here);
            }
            at += mem_row::span(h);
            base += h.size as usize;
        }
        lookup_at(
            false,
            RowPlace {
                row: objects,
                at,
                base,
            },
        )
    }

    // The places of the objects at two paths, in one pass: the search for the higher path begins where that for the lower
    // one ended.
    pub fn find_two(self, first: &[u8], second: &[u8]) -> TwoLookups
        ensures first { result.first ≡ object_place (state_of self.entry.tables.now self.entry.arena.now) first.now }
        ensures second { result.second ≡ object_place (state_of self.entry.tables.now self.entry.arena.now) second.now }
    {
        match base_order::compare(first, second) {
            Ordering::Greater => {
                let low = self.find_object(second);
                TwoLookups {
                    first: self.find_from(first, place_of(low)),
                    second: low,
                }
            }
            Ordering::Equal => {
                let low = self.find_object(first);
                TwoLookups {
                    first: low,
                    second: low,
                }
            }
            Ordering::Less => {
                let low = self.find_object(first);
                TwoLookups {
                    first: low,
                    second: self.find_from(second, place_of(low)),
                }
            }
        }
    }
}
