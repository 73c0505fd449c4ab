//! The places of the parameter records, kept beside the storage: reading or setting a row then
//! costs no walk over the records.
#![tactic(auto)]

ghost use Rattle.std.specs.Prelude.{◌≡◌, ◌<◌, ℕ, List, IfSome, Some, length, slice_get};
ghost use Rattle.param_tree.specs.declared.Var.{Var};
ghost use Rattle.param_records.specs.Lookups.{IsLookupOf};
ghost use Rattle.storage_lines.specs.declared.lines.TheConstants.{STORAGE_BYTES};
ghost use Rattle.param_records.specs.Values.{params_of};
ghost use Rattle.param_index.specs.Places.{Places, IsIndexOf};

mod building;
mod setting;

use param_records::{Lookup, Value, default_value, size_of, value_of};
use param_tree::Table;
use std::marker::Model;
use storage_lines::{Area, STORAGE_BYTES, read};

/// For each of `N` rows the logical place of its record's value, and the logical place of the first
/// end, where the next record begins. They are those of some storage bytes, which the index doesn't
/// have: whoever changes the parameter storage by other calls builds the index again.
#[derive(Drop)]
pub struct Index<const N: usize> {
    places: [Option<u16>; N],
    end: u16,
}

impl<const N: usize> Model for Index<N> {
    ghost use Rattle.param_index.specs.Places.{Places};

    ghost Value = { Places };

    ghost view = { λ index. record { of_rows = index.places; end = index.end } };
}

impl<const N: usize> Index<N> {
    /// The logical place of the value of the row's record, or None where no record is the row's.
    pub fn place(&self, var: u16) -> Option<u16>
        requires row { var < N }
        ensures { slice_get self.now.of_rows var ≡ Some result }
    {
        self.places[var as usize]
    }

    /// The logical place of the first end.
    pub fn end(&self) -> u16
        ensures { result ≡ self.now.end }
    {
        let Index { places: _, end } = self;
        *end
    }

    /// The same index once more.
    pub fn copy(&self) -> Index<N>
        ensures { result ≡ self.now }
    {
        Index {
            places: self.places,
            end: self.end,
        }
    }

    /// What the look-up of the row's record gives in the bytes that the index is of.
    fn lookup(&self, var: u16) -> Lookup
        requires { var < N }
        ensures { (rows : List Var) (bytes : List ℕ) → IsIndexOf rows bytes self.now
            → IfSome (slice_get rows var) (λ row. IsLookupOf bytes row result) }
    {
        match self.place(var) {
            Some(at) => Lookup::At(at),
            None => Lookup::End(self.end),
        }
    }

    /// The value of a row: of the first record of its key, element and kind, at its part, else its
    /// default.
    pub fn value(&self, current: &[u8], table: &Table<N>, var: u16) -> Value
        requires size { length current.now ≡ STORAGE_BYTES }
        requires row { var < N }
        requires index { IsIndexOf table.now current.now self.now }
        ensures { IfSome (slice_get table.now var) (λ row. result ≡ params_of current.now row) }
    {
        let row = table.row(var);
        match self.place(var) {
            None => default_value(row.kind, row.default),
            Some(at) => {
                let mut bytes = [0; 12];
                let size = size_of(row.kind);
                read(Area::Param, at, current, &mut bytes[..size]);
                value_of(row.kind, row.part, &bytes)
            }
        }
    }
}

#[cfg(test)]
mod tests;
