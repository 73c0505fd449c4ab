//! Setting a row as a station asks for it: to a value of its kind, and never how many commands or
//! points there are.
ghost use Rattle.std.specs.Prelude.{◌≡◌, ◌<◌, ◌≤◌, [], ℕ, All, length, take, slice_get, IfSome};
ghost use Rattle.std.specs.Prelude.{None};
ghost use Rattle.storage_lines.specs.declared.lines.TheConstants.{STORAGE_BYTES, LINES};
ghost use Rattle.storage_lines.specs.Lines.{after};
ghost use Rattle.param_tree.specs.Rows.{vehicle_rows};
ghost use Rattle.param_records.specs.declared.values.Value.{Value};
ghost use Rattle.param_records.specs.Patterns.{IsNumberOf, IsValueOf};
ghost use Rattle.param_records.specs.Steps.{HasMagic};
ghost use Rattle.param_index.specs.Places.{IsIndexOf};
ghost use Rattle.param_service.specs.Requests.{parameters};
ghost use Rattle.param_service.specs.Service.{is_total};
ghost use Rattle.param_service.specs.Setting.{IsSet};

use crate::budget::exceeds;
use crate::replies::row_value;
use param_index::Index;
use param_records::{SET_LINES, Value, has_magic};
use param_tree::{Kind, PARAMETERS, Table, Var};
use storage_lines::Batch;
use word_bits::whole_of;

/// Whether the row counts mission commands or rally points, which no station sets.
fn is_total(row: &Var) -> bool
    ensures { result ≡ is_total row.now }
{
    let name = row.name();
    name == b"MIS_TOTAL".as_slice() || name == b"RALLY_TOTAL".as_slice()
}

/// The value that a pattern is for a kind.
fn value_of(kind: Kind, bits: u32) -> Value
    requires { (n : ℕ) × IsNumberOf kind bits n }
    ensures { (value : Value) → IsValueOf kind bits value → value ≡ result }
{
    match kind {
        Kind::I8 | Kind::I16 | Kind::I32 => match whole_of(bits) {
            Some(number) => Value::Whole(number),
            None => unreachable!(),
        },
        Kind::F32 | Kind::Vec3 => Value::Bits(bits),
    }
}

/// Sets a row to the value of a pattern where it may be set and can be, with as many lines as that
/// takes, and gives the value that it then has.
fn set_without_limit(
    table: &Table<PARAMETERS>,
    places: &mut Index<PARAMETERS>,
    current: &[u8],
    index: u16,
    bits: u32,
    batch: &mut Batch,
) -> Value
    requires rows { table.now ≡ vehicle_rows }
    requires size { length current.now ≡ STORAGE_BYTES }
    requires places { IsIndexOf vehicle_rows current.now places.old }
    requires row { index < parameters }
    requires batch { batch.old.items ≡ [] }
    ensures value { IfSome (slice_get vehicle_rows index)
        (λ row. IsSet current.now None row index bits batch.new.items result) }
    ensures places { IsIndexOf vehicle_rows (after current.now batch.new.items) places.new }
    ensures inside { All (λ write. write.line < LINES) batch.new.items }
    ensures few { length batch.new.items ≤ SET_LINES }
    ensures magic { HasMagic current.now
        → (j : ℕ) → HasMagic (after current.now (take j batch.new.items)) }
{
    let row = table.row(index);
    let old = row_value(table, places, current, index);
    if is_total(&row) {
        return old;
    }
    match places.set(current, table, index, bits, batch) {
        Ok(()) if has_magic(current) => value_of(row.kind, bits),
        // Without the magic the storage has no records: the row has its default still.
        Ok(()) => old,
        Err(_) => old,
    }
}

/// Sets a row to the value of a pattern where it may be set and can be, and where no more lines are
/// needed than may be issued, and gives the value that it then has.
pub fn set_row(
    table: &Table<PARAMETERS>,
    places: &mut Index<PARAMETERS>,
    current: &[u8],
    allowed: Option<u32>,
    index: u16,
    bits: u32,
    batch: &mut Batch,
) -> Value
    requires rows { table.now ≡ vehicle_rows }
    requires size { length current.now ≡ STORAGE_BYTES }
    requires places { IsIndexOf vehicle_rows current.now places.old }
    requires row { index < parameters }
    requires batch { batch.old.items ≡ [] }
    ensures value { IfSome (slice_get vehicle_rows index)
        (λ row. IsSet current.now allowed row index bits batch.new.items result) }
    ensures within { (limit : ℕ) → allowed ≡ Some limit → length batch.new.items ≤ limit }
    ensures places { IsIndexOf vehicle_rows (after current.now batch.new.items) places.new }
    ensures inside { All (λ write. write.line < LINES) batch.new.items }
    ensures few { length batch.new.items ≤ SET_LINES }
    ensures magic { HasMagic current.now
        → (j : ℕ) → HasMagic (after current.now (take j batch.new.items)) }
{
    let before = places.copy();
    let value = set_without_limit(table, places, current, index, bits, batch);
    if exceeds(allowed, batch) {
        batch.clear();
        *places = before;
        return row_value(table, places, current, index);
    }
    value
}
