//! Setting a row at its kept place, and what the index then keeps.
ghost use Rattle.std.specs.Prelude.{◌≡◌, ◌≢◌, ◌⊎◌, ◌<◌, ◌≤◌, ◌+◌, ◌++◌, ◌↔◌, ℕ, Some, None, IsTrue, length, take, drop, slice_get, IfSome, OnOk, OnErr, IfErr, IsErr, IsErrOf};
ghost use Rattle.arrayvec.specs.ArrayVec.{array_vec_len};
ghost use Rattle.storage_lines.specs.declared.areas.Area.TheVariants.{Param};
ghost use Rattle.storage_lines.specs.Areas.{logical_of};
ghost use Rattle.storage_lines.specs.Bytes.{IsBytes, HaveBytes, AreInside};
ghost use Rattle.storage_lines.specs.Lines.{after};
ghost use Rattle.storage_lines.specs.Pieces.{writes_of};
ghost use Rattle.param_records.specs.Records.{magic, end_of};
ghost use Rattle.param_records.specs.Values.{params_of};
ghost use Rattle.param_records.specs.Changes.{set_pieces, IsFull, SamePlaces};
ghost use Rattle.param_records.specs.Patterns.{IsNumberOf, IsValueOf, IsInRangeOf, number_of_whole};
ghost use Rattle.param_records.specs.Steps.{HasMagic, IsKept, records_in_storage, SetsRow, SetsWell};
ghost use Rattle.param_index.specs.Places.{IsIndexOf};

use crate::Index;
use param_records::{Header, MAGIC, SET_LINES, SetError, Value, has_magic, number_of, store};
use param_tree::{Table, Var};
use storage_lines::{BATCH_LINES, Batch, LineWrite, STORAGE_BYTES};

/// Whether the bytes of a line begin with the magic.
fn is_magic(line: &[u8; 8]) -> bool
    ensures magic { IsTrue result ↔ (take 4 line.now ≡ magic) }
    ensures size { length line.now ≡ 8 }
    ensures bytes { IsBytes line.now }
{
    line[..4] == MAGIC[..]
}

/// Whether the parameter storage begins with the magic once the writes are applied.
fn has_magic_after(current: &[u8], writes: &[LineWrite]) -> bool
    requires { length current.now ≡ STORAGE_BYTES }
    ensures magic { IsTrue result ↔ HasMagic (after current.now writes.now) }
    ensures bytes { IsBytes (after current.now writes.now) }
{
    let mut magic = has_magic(current);
    for write in writes {
        let is_magic = is_magic(&write.bytes);
        if write.line == 0 {
            magic = is_magic;
        }
    }
    magic
}

impl<const N: usize> Index<N> {
    /// Whether the row gets a record where it is set to a number: it has none, and the number isn't
    /// its default. A storage without the magic has no records, whatever is written.
    fn is_new(&self, row: &Var, var: u16, number: u32, magic: bool) -> bool
        requires { var < N }
        ensures { IsTrue result ↔ (IsTrue magic
            × (slice_get self.now.of_rows var ≡ Some None) × (number ≢ row.now.default)) }
    {
        match self.place(var) {
            Some(_) => false,
            None => magic && number != row.default,
        }
    }

    /// Sets a row to a number, and keeps the place of a record that this appends.
    fn store(
        &mut self,
        current: &[u8],
        table: &Table<N>,
        var: u16,
        number: u32,
        batch: &mut Batch,
    ) -> Result<(), SetError>
        requires size { length current.now ≡ STORAGE_BYTES }
        requires row { var < N }
        requires kept { IfSome (slice_get table.now var) (λ row. IsKept row.kind number) }
        requires index { IsIndexOf table.now current.now self.old }
        requires room { array_vec_len batch.old + SET_LINES ≤ BATCH_LINES }
        requires stand { SamePlaces table.now current.now (after current.now batch.old.items) }
        ensures ok { let before = after current.now batch.old.items in
            OnOk result (IfSome (slice_get table.now var) (λ row. batch.new.items ≡ batch.old.items
            ++ writes_of before (set_pieces table.now (records_in_storage before) row number))) }
        ensures err { OnErr result (batch.new ≡ batch.old) }
        ensures full { let before = after current.now batch.old.items in
            IfSome (slice_get table.now var) (λ row.
            IsErr result ↔ IsFull (records_in_storage before) row number) }
        ensures end { IfErr result (λ e.
            e ≡ SetError.Full (end_of (logical_of Param (after current.now batch.old.items)))) }
        ensures steps { OnOk result (SetsWell table.now var number
            (after current.now batch.old.items) batch.old.items batch.new.items) }
        ensures kept { OnErr result (self.new ≡ self.old) }
        ensures index { IsIndexOf table.now (after current.now batch.new.items) self.new }
        ensures few { array_vec_len batch.new ≤ array_vec_len batch.old + SET_LINES }
        ensures inside { AreInside batch.old.items → AreInside batch.new.items }
        ensures bytes { HaveBytes batch.old.items → HaveBytes batch.new.items }
    {
        table.rules();
        let row = table.row(var);
        let magic = has_magic_after(current, batch.as_slice());
        let is_new = self.is_new(&row, var, number, magic);
        store(current, table, self.lookup(var), var, number, batch)?;
        if is_new {
            let header = Header {
                key: row.key,
                element: row.element,
                kind: row.kind,
            };
            self.add(table, &header);
        }
        Ok(())
    }

    /// Appends the writes that set a row to the value of a binary32 pattern, of a whole number for
    /// an integer kind, as `param_records::set` does. The index is then of the bytes after them.
    ///
    /// The writes come after those of the batch, and go over `current` with these applied.
    pub fn set(
        &mut self,
        current: &[u8],
        table: &Table<N>,
        var: u16,
        bits: u32,
        batch: &mut Batch,
    ) -> Result<(), SetError>
        requires size { length current.now ≡ STORAGE_BYTES }
        requires row { var < N }
        requires index { IsIndexOf table.now current.now self.old }
        requires room { array_vec_len batch.old + SET_LINES ≤ BATCH_LINES }
        requires stand { SamePlaces table.now current.now (after current.now batch.old.items) }
        ensures ok { let before = after current.now batch.old.items in
            OnOk result (IfSome (slice_get table.now var) (λ row.
            (n : ℕ) × IsNumberOf row.kind bits n × (batch.new.items ≡ batch.old.items
            ++ writes_of before (set_pieces table.now (records_in_storage before) row n)))) }
        ensures err { OnErr result (batch.new ≡ batch.old) }
        ensures range { IfSome (slice_get table.now var) (λ row.
            IsErrOf result (SetError.Range bits) ↔ ((n : ℕ) → ¬ IsNumberOf row.kind bits n)) }
        ensures full { let before = after current.now batch.old.items in
            IfSome (slice_get table.now var) (λ row.
            IsErrOf result (SetError.Full (end_of (logical_of Param before)))
            ↔ ((n : ℕ) × IsNumberOf row.kind bits n
            × IsFull (records_in_storage before) row n)) }
        ensures only { let before = after current.now batch.old.items in
            IfErr result (λ e. (e ≡ SetError.Range bits)
            ⊎ (e ≡ SetError.Full (end_of (logical_of Param before)))) }

        // What is kept.
        ensures kept { OnErr result (self.new ≡ self.old) }
        ensures index { IsIndexOf table.now (after current.now batch.new.items) self.new }

        // A batch's writes have bytes, as the clause `bytes` keeps: so have the storage's after
        // them.
        ensures steps { let before = after current.now batch.old.items in
            OnOk result (IsBytes (logical_of Param before)
            → IfSome (slice_get table.now var) (λ row. (n : ℕ) → IsNumberOf row.kind bits n
            → SetsRow table.now var row n before
            (drop (array_vec_len batch.old) batch.new.items))) }
        ensures value { let before = after current.now batch.old.items in
            OnOk result (IsBytes (logical_of Param before) → HasMagic before
            → IfSome (slice_get table.now var) (λ row.
            IsValueOf row.kind bits (params_of (after current.now batch.new.items) row))) }

        // Whatever is answered.
        ensures few { array_vec_len batch.new ≤ array_vec_len batch.old + SET_LINES }
        ensures inside { AreInside batch.old.items → AreInside batch.new.items }
        ensures bytes { HaveBytes batch.old.items → HaveBytes batch.new.items }
    {
        let row = table.row(var);
        match number_of(row.kind, bits) {
            Some(number) => self.store(current, table, var, number, batch),
            None => Err(SetError::Range { bits }),
        }
    }

    /// Appends the writes that set a row of an integer kind to a number in its range, as `set`
    /// does.
    pub fn set_whole(
        &mut self,
        current: &[u8],
        table: &Table<N>,
        var: u16,
        number: i32,
        batch: &mut Batch,
    ) -> Result<(), SetError>
        requires size { length current.now ≡ STORAGE_BYTES }
        requires row { var < N }
        requires range { IfSome (slice_get table.now var) (λ row. IsInRangeOf row.kind number) }
        requires index { IsIndexOf table.now current.now self.old }
        requires room { array_vec_len batch.old + SET_LINES ≤ BATCH_LINES }
        requires stand { SamePlaces table.now current.now (after current.now batch.old.items) }
        ensures ok { let before = after current.now batch.old.items in
            OnOk result (IfSome (slice_get table.now var) (λ row. batch.new.items ≡ batch.old.items
            ++ writes_of before
            (set_pieces table.now (records_in_storage before) row (number_of_whole number)))) }
        ensures err { OnErr result (batch.new ≡ batch.old) }
        ensures full { let before = after current.now batch.old.items in
            IfSome (slice_get table.now var) (λ row.
            IsErr result ↔ IsFull (records_in_storage before) row (number_of_whole number)) }
        ensures end { IfErr result (λ e.
            e ≡ SetError.Full (end_of (logical_of Param (after current.now batch.old.items)))) }

        // What is kept.
        ensures kept { OnErr result (self.new ≡ self.old) }
        ensures index { IsIndexOf table.now (after current.now batch.new.items) self.new }

        // A batch's writes have bytes, as the clause `bytes` keeps: so have the storage's after
        // them.
        ensures steps { let before = after current.now batch.old.items in
            OnOk result (IsBytes (logical_of Param before)
            → IfSome (slice_get table.now var) (λ row.
            SetsRow table.now var row (number_of_whole number) before
            (drop (array_vec_len batch.old) batch.new.items))) }
        ensures value { let before = after current.now batch.old.items in
            OnOk result (IsBytes (logical_of Param before) → HasMagic before
            → IfSome (slice_get table.now var) (λ row.
            params_of (after current.now batch.new.items) row ≡ Value.Whole number)) }

        // Whatever is answered.
        ensures few { array_vec_len batch.new ≤ array_vec_len batch.old + SET_LINES }
        ensures inside { AreInside batch.old.items → AreInside batch.new.items }
        ensures bytes { HaveBytes batch.old.items → HaveBytes batch.new.items }
    {
        self.store(current, table, var, number.cast_unsigned(), batch)
    }
}
