//! Setting a row: its bytes in the first record that matches, else a new record, unless the default
//! is meant.
ghost use Rattle.std.specs.Prelude.{◌≡◌, ◌≢◌, ◌⊎◌, ◌<◌, ◌≤◌, ◌+◌, ◌*◌, ◌++◌, ◌↔◌, ℕ, [], length, take, drop, slice_get, IfSome, OnOk, OnErr, IfErr, IsErr, IsErrOf, MatchOption};
ghost use Rattle.arrayvec.specs.ArrayVec.{array_vec_len};
ghost use Rattle.storage_lines.specs.declared.areas.Area.TheVariants.{Param};
ghost use Rattle.storage_lines.specs.Areas.{logical_of};
ghost use Rattle.storage_lines.specs.Bytes.{IsBytes, HaveBytes, AreInside};
ghost use Rattle.storage_lines.specs.Lines.{after};
ghost use Rattle.storage_lines.specs.Pieces.{writes_of};
ghost use Rattle.param_tree.specs.Rules.{is_part};
ghost use Rattle.param_records.specs.Records.{four_bytes, size_of, end_of};
ghost use Rattle.param_records.specs.Lookups.{IsLookupOf};
ghost use Rattle.param_records.specs.Values.{params_of};
ghost use Rattle.param_records.specs.Changes.{part_size, default_at, part_number, fresh_bytes, set_pieces, IsFull, SamePlaces};
ghost use Rattle.param_records.specs.Patterns.{IsNumberOf, IsValueOf, IsInRangeOf, number_of_whole};
ghost use Rattle.param_records.specs.Steps.{HasMagic, records_in_storage, SetsRow, SetsWell};

use crate::appending::{APPEND_LINES, append, four_bytes, put};
use crate::records::{Lookup, PARAM_BYTES, look_up, size_of};
use crate::values::Value;
use param_tree::{Kind, Table, Var};
use storage_lines::{BATCH_LINES, Batch, STORAGE_BYTES};
use thiserror::Error;
use word_bits::{is_finite, whole_of};

/// The line writes for which a batch must have places before a row is set.
pub const SET_LINES: usize = 8;

/// Why a parameter is not set; the batch is as before.
#[derive(Clone, Copy, Debug, PartialEq, Eq, Drop, Error)]
pub enum SetError {
    /// The binary32 pattern is no value of the row's kind.
    #[error("{bits:08X} is no value of the parameter")]
    Range { bits: u32 },
    /// No record fits at the end of the records, with the sentinel after it.
    #[error("the parameter storage is full at {end}")]
    Full { end: u16 },
}

/// How many bytes a row's own part of a value has.
fn part_size(kind: Kind) -> usize
    ensures size { result ≡ part_size kind }
    ensures most { result ≤ 4 }
{
    match kind {
        Kind::I8 => 1,
        Kind::I16 => 2,
        Kind::I32 | Kind::F32 | Kind::Vec3 => 4,
    }
}

/// Whether the other row is this part of the three floats that the row is a part of.
fn is_part(row: &Var, part: u8, other: &Var) -> bool
    ensures { result ≡ is_part row.now part other.now }
{
    other.key == row.key
        && other.element == row.element
        && matches!(other.kind, Kind::Vec3)
        && other.part == part
}

/// The default of a part of the row's record.
fn default_at<const N: usize>(table: &Table<N>, row: &Var, part: u8) -> u32
    ensures { result ≡ default_at table.now row.now part }
{
    table.rules();
    for i in 0..N as u16 {
        let other = table.row(i);
        if is_part(row, part, &other) {
            return other.default;
        }
    }
    0
}

/// The number of a part of the row's record: the new one for the row's own part, else the part's
/// default.
fn part_number<const N: usize>(table: &Table<N>, row: &Var, number: u32, part: u8) -> u32
    ensures { result ≡ part_number table.now row.now number part }
{
    if row.part == part {
        number
    } else {
        default_at(table, row, part)
    }
}

/// The value of a new record that gives the row this number: its first `size_of` bytes. Other parts
/// have their defaults, so with the row's own default these are the default's bytes.
pub fn fresh_value<const N: usize>(table: &Table<N>, row: &Var, number: u32) -> [u8; 12]
    ensures { take (size_of row.now.kind) result
        ≡ fresh_bytes row.now.kind table.now row.now number }
{
    match row.kind {
        Kind::Vec3 => {
            let [a, b, c, d] = four_bytes(part_number(table, row, number, 0));
            let [e, f, g, h] = four_bytes(part_number(table, row, number, 1));
            let [i, j, k, l] = four_bytes(part_number(table, row, number, 2));
            [a, b, c, d, e, f, g, h, i, j, k, l]
        }
        Kind::I8 | Kind::I16 | Kind::I32 | Kind::F32 => {
            let [a, b, c, d] = four_bytes(number);
            [a, b, c, d, 0, 0, 0, 0, 0, 0, 0, 0]
        }
    }
}

/// Puts the number's bytes where a record matches, or else appends a record, unless the number is
/// the default.
fn write<const N: usize>(
    current: &[u8],
    table: &Table<N>,
    lookup: Lookup,
    var: u16,
    number: u32,
    batch: &mut Batch,
) -> Result<(), SetError>
    requires size { length current.now ≡ STORAGE_BYTES }
    requires row { var < N }
    requires lookup { IfSome (slice_get table.now var) (λ row. IsLookupOf current.now row lookup) }
    requires room { array_vec_len batch.old + SET_LINES ≤ BATCH_LINES }
    requires stand { SamePlaces table.now current.now (after current.now batch.old.items) }
    ensures ok { let before = after current.now batch.old.items in
        OnOk result (IfSome (slice_get table.now var) (λ row. batch.new.items ≡ batch.old.items
        ++ writes_of before (set_pieces table.now (records_in_storage before) row number))) }
    ensures err { OnErr result (batch.new ≡ batch.old) }
    ensures full { let before = after current.now batch.old.items in
        IfSome (slice_get table.now var) (λ row.
        IsErr result ↔ IsFull (records_in_storage before) row number) }
    ensures end { IfErr result (λ e.
        e ≡ SetError.Full (end_of (logical_of Param (after current.now batch.old.items)))) }
    ensures few { array_vec_len batch.new ≤ array_vec_len batch.old + SET_LINES }
    ensures inside { AreInside batch.old.items → AreInside batch.new.items }
    ensures bytes { HaveBytes batch.old.items → HaveBytes batch.new.items }
{
    let row = table.row(var);
    match lookup {
        Lookup::At(at) => {
            let bytes = four_bytes(number);
            put(
                at as usize + 4 * row.part as usize,
                &bytes[..part_size(row.kind)],
                current,
                batch,
            );
            Ok(())
        }
        Lookup::End(end) => {
            if number == row.default {
                return Ok(());
            }
            let size = size_of(row.kind);
            if end as usize + 8 + size > PARAM_BYTES {
                return Err(SetError::Full { end });
            }
            let value = fresh_value(table, &row, number);
            append(
                current,
                end as usize,
                row.key,
                row.element,
                row.kind,
                &value[..size],
                batch,
            );
            Ok(())
        }
    }
}

/// Sets a row to a number: the pattern of a float, or a whole number in two's complement. What was
/// looked up may come from a walk or be remembered. `Full` is its only refusal.
pub fn store<const N: usize>(
    current: &[u8],
    table: &Table<N>,
    lookup: Lookup,
    var: u16,
    number: u32,
    batch: &mut Batch,
) -> Result<(), SetError>
    requires size { length current.now ≡ STORAGE_BYTES }
    requires row { var < N }
    requires lookup { IfSome (slice_get table.now var) (λ row. IsLookupOf current.now row lookup) }
    requires room { array_vec_len batch.old + SET_LINES ≤ BATCH_LINES }
    requires stand { SamePlaces table.now current.now (after current.now batch.old.items) }
    ensures ok { let before = after current.now batch.old.items in
        OnOk result (IfSome (slice_get table.now var) (λ row. batch.new.items ≡ batch.old.items
        ++ writes_of before (set_pieces table.now (records_in_storage before) row number))) }
    ensures err { OnErr result (batch.new ≡ batch.old) }
    ensures full { let before = after current.now batch.old.items in
        IfSome (slice_get table.now var) (λ row.
        IsErr result ↔ IsFull (records_in_storage before) row number) }
    ensures end { IfErr result (λ e.
        e ≡ SetError.Full (end_of (logical_of Param (after current.now batch.old.items)))) }
    ensures steps { OnOk result (SetsWell table.now var number (after current.now batch.old.items)
        batch.old.items batch.new.items) }
    ensures few { array_vec_len batch.new ≤ array_vec_len batch.old + SET_LINES }
    ensures inside { AreInside batch.old.items → AreInside batch.new.items }
    ensures bytes { HaveBytes batch.old.items → HaveBytes batch.new.items }
{
    table.rules();
    write(current, table, lookup, var, number, batch)
}

/// The look-up of a row's record.
fn look_up_row<const N: usize>(current: &[u8], table: &Table<N>, var: u16) -> Lookup
    requires size { length current.now ≡ STORAGE_BYTES }
    requires row { var < N }
    ensures { IfSome (slice_get table.now var) (λ row. IsLookupOf current.now row result) }
{
    let row = table.row(var);
    look_up(current, row.key, row.element, row.kind)
}

/// The number that a binary32 pattern is for a kind, or None where it is no value of the kind.
pub fn number_of(kind: Kind, bits: u32) -> Option<u32>
    ensures { MatchOption result ((n : ℕ) → ¬ IsNumberOf kind bits n)
        (λ n. IsNumberOf kind bits n) }
{
    let (low, high) = match kind {
        Kind::I8 => (-128, 127),
        Kind::I16 => (-32768, 32767),
        Kind::I32 => (i32::MIN, i32::MAX),
        Kind::F32 | Kind::Vec3 => {
            return if is_finite(bits) { Some(bits) } else { None };
        }
    };
    let whole = whole_of(bits)?;
    if whole < low || whole > high {
        return None;
    }
    Some(whole.cast_unsigned())
}

/// Appends the writes that set a row to the value of a binary32 pattern: of a whole number for an
/// integer kind.
///
/// The writes come after those of the batch, and go over `current` with these applied.
pub fn set<const N: usize>(
    current: &[u8],
    table: &Table<N>,
    var: u16,
    bits: u32,
    batch: &mut Batch,
) -> Result<(), SetError>
    requires size { length current.now ≡ STORAGE_BYTES }
    requires row { var < N }
    requires room { array_vec_len batch.old + SET_LINES ≤ BATCH_LINES }
    requires stand { SamePlaces table.now current.now (after current.now batch.old.items) }
    ensures ok { let before = after current.now batch.old.items in
        OnOk result (IfSome (slice_get table.now var) (λ row. (n : ℕ) × IsNumberOf row.kind bits n
        × (batch.new.items ≡ batch.old.items
        ++ writes_of before (set_pieces table.now (records_in_storage before) row n)))) }
    ensures err { OnErr result (batch.new ≡ batch.old) }
    ensures range { IfSome (slice_get table.now var) (λ row.
        IsErrOf result (SetError.Range bits) ↔ ((n : ℕ) → ¬ IsNumberOf row.kind bits n)) }
    ensures full { let before = after current.now batch.old.items in
        IfSome (slice_get table.now var) (λ row.
        IsErrOf result (SetError.Full (end_of (logical_of Param before)))
        ↔ ((n : ℕ) × IsNumberOf row.kind bits n × IsFull (records_in_storage before) row n)) }
    ensures only { let before = after current.now batch.old.items in
        IfErr result (λ e. (e ≡ SetError.Range bits)
        ⊎ (e ≡ SetError.Full (end_of (logical_of Param before)))) }

    // A batch's writes have bytes, as the clause `bytes` keeps: so have the storage's after them.
    ensures steps { let before = after current.now batch.old.items in
        OnOk result (IsBytes (logical_of Param before) → IfSome (slice_get table.now var) (λ row.
        (n : ℕ) → IsNumberOf row.kind bits n
        → SetsRow table.now var row n before (drop (array_vec_len batch.old) batch.new.items))) }
    ensures value { let before = after current.now batch.old.items in
        OnOk result (IsBytes (logical_of Param before) → HasMagic before
        → IfSome (slice_get table.now var) (λ row.
        IsValueOf row.kind bits (params_of (after current.now batch.new.items) row))) }

    // Whatever is answered.
    ensures few { array_vec_len batch.new ≤ array_vec_len batch.old + SET_LINES }
    ensures inside { AreInside batch.old.items → AreInside batch.new.items }
    ensures bytes { HaveBytes batch.old.items → HaveBytes batch.new.items }
{
    let row = table.row(var);
    match number_of(row.kind, bits) {
        Some(number) => {
            let lookup = look_up_row(current, table, var);
            store(current, table, lookup, var, number, batch)
        }
        None => Err(SetError::Range { bits }),
    }
}

/// Appends the writes that set a row of an integer kind to a number in its range, as `set` does.
pub fn set_whole<const N: usize>(
    current: &[u8],
    table: &Table<N>,
    var: u16,
    number: i32,
    batch: &mut Batch,
) -> Result<(), SetError>
    requires size { length current.now ≡ STORAGE_BYTES }
    requires row { var < N }
    requires range { IfSome (slice_get table.now var) (λ row. IsInRangeOf row.kind number) }
    requires room { array_vec_len batch.old + SET_LINES ≤ BATCH_LINES }
    requires stand { SamePlaces table.now current.now (after current.now batch.old.items) }
    ensures ok { let before = after current.now batch.old.items in
        OnOk result (IfSome (slice_get table.now var) (λ row. batch.new.items ≡ batch.old.items
        ++ writes_of before
        (set_pieces table.now (records_in_storage before) row (number_of_whole number)))) }
    ensures err { OnErr result (batch.new ≡ batch.old) }
    ensures full { let before = after current.now batch.old.items in
        IfSome (slice_get table.now var) (λ row.
        IsErr result ↔ IsFull (records_in_storage before) row (number_of_whole number)) }
    ensures end { IfErr result (λ e.
        e ≡ SetError.Full (end_of (logical_of Param (after current.now batch.old.items)))) }

    // A batch's writes have bytes, as the clause `bytes` keeps: so have the storage's after them.
    ensures steps { let before = after current.now batch.old.items in
        OnOk result (IsBytes (logical_of Param before) → IfSome (slice_get table.now var) (λ row.
        SetsRow table.now var row (number_of_whole number) before
        (drop (array_vec_len batch.old) batch.new.items))) }
    ensures value { let before = after current.now batch.old.items in
        OnOk result (IsBytes (logical_of Param before) → HasMagic before
        → IfSome (slice_get table.now var) (λ row.
        params_of (after current.now batch.new.items) row ≡ Value.Whole number)) }

    // Whatever is answered.
    ensures few { array_vec_len batch.new ≤ array_vec_len batch.old + SET_LINES }
    ensures inside { AreInside batch.old.items → AreInside batch.new.items }
    ensures bytes { HaveBytes batch.old.items → HaveBytes batch.new.items }
{
    let lookup = look_up_row(current, table, var);
    store(current, table, lookup, var, number.cast_unsigned(), batch)
}
