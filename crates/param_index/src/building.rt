//! An index built from the storage: in one walk over the records, each of which gives its place to
//! the rows that have none yet.
ghost use Rattle.std.specs.Prelude.{◌≡◌, ◌≤◌, ◌+◌, ◌∷◌, [], ◌++◌, ℕ, List, Option, Some, length, slice_get};
ghost use Rattle.param_tree.specs.declared.Var.{Var};
ghost use Rattle.param_records.specs.Records.{Record, size_of};
ghost use Rattle.param_records.specs.Steps.{HasMagic};
ghost use Rattle.param_index.specs.Places.{IsIndexOf};
ghost use Rattle.param_index.specs.Inside.{IsIndexOfRecords, place_with, HasHeader};

use crate::Index;
use param_records::{Header, PARAM_BYTES, has_magic, header_at, is_match, size_of};
use param_tree::Table;
use storage_lines::STORAGE_BYTES;

/// Where the first record begins, after the magic.
const FIRST: u16 = 4;

/// Keeps the place of a record's value for each row of its key, element and kind that has none.
fn keep_place<const N: usize>(
    places: &mut [Option<u16>; N],
    table: &Table<N>,
    header: &Header,
    at: u16,
)
    ensures { (i : ℕ) (row : Var) (was : Option ℕ) → slice_get table.now i ≡ Some row
        → slice_get places.old i ≡ Some was
        → slice_get places.new i ≡ Some (place_with header.now at row was) }
{
    table.rules();
    for i in 0..N as u16 {
        let row = table.row(i);
        if places[i as usize].is_none() && is_match(header, row.key, row.element, row.kind) {
            places[i as usize] = Some(at);
        }
    }
}

impl<const N: usize> Index<N> {
    /// The index of a storage without records.
    pub fn empty(table: &Table<N>) -> Index<N>
        ensures records { IsIndexOfRecords table.now [] result }
        ensures index { (bytes : List ℕ) → ¬ HasMagic bytes → IsIndexOf table.now bytes result }
    {
        table.rules();
        Index {
            places: [None; N],
            end: FIRST,
        }
    }

    /// Adds a record that begins at the end, where it fits the parameter storage.
    pub(crate) fn add(&mut self, table: &Table<N>, header: &Header)
        requires fits { self.old.end + 4 + size_of header.now.kind ≤ PARAM_BYTES }
        ensures end { self.new.end ≡ self.old.end + 4 + size_of header.now.kind }
        ensures index { (records : List Record) (r : Record)
            → IsIndexOfRecords table.now records self.old → HasHeader header.now r
            → IsIndexOfRecords table.now (records ++ r ∷ []) self.new }
    {
        let at = self.end + 4;
        keep_place(&mut self.places, table, header, at);
        self.end = at + size_of(header.kind) as u16;
    }

    /// The index of these bytes and the table.
    ///
    /// It goes over the records once and compares each with each row: with 240 rows and as many
    /// records these are 57,600 comparisons, and never more than 466,560, of 1,944 records of five
    /// bytes. So it is for the beginning, and for after a change that the index didn't make.
    pub fn build(current: &[u8], table: &Table<N>) -> Index<N>
        requires { length current.now ≡ STORAGE_BYTES }
        ensures { IsIndexOf table.now current.now result }
    {
        table.rules();
        let mut index = Index::empty(table);
        if has_magic(current) {
            while let Some(header) = header_at(current, index.end as usize) {
                index.add(table, &header);
            }
        }
        index
    }
}
