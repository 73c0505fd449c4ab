//! The parameters of an image, a line for each.
ghost use Rattle.std.specs.Prelude.{◌≡◌, ◌≤◌, ◌<◌, ◌+◌, ◌++◌, length, slice_get};
ghost use Rattle.param_tree.specs.declared.Var.{Var};
ghost use Rattle.param_tree.specs.Rules.{name_of};
ghost use Rattle.sector_log.specs.Storage.{storage_bytes};
ghost use Rattle.image_report.specs.Dumps as dumps;
ghost use Rattle.image_report.specs.Steps.Writes.{Writes};

use crate::output::write;
use flash_traits::{Failed, Sink};
use param_records::{Value, value};
use param_tree::{Kind, PARAMETERS, Table, Var, name_in, vehicle_table};
use printed_text::{LINE_BYTES, Line, push, push_hex, push_number};

/// The rows of the vehicle's table.
const ROWS: u16 = PARAMETERS as u16;

/// A row's name, without the zeros after it.
fn push_name(line: &mut Line, row: &Var)
    requires { length line.old.items + 16 ≤ LINE_BYTES }
    ensures bytes { line.new.items ≡ line.old.items ++ name_of row.now }
    ensures len { length line.new.items ≤ length line.old.items + 16 }
{
    push(line, name_in(&row.name));
}

/// The name of a row's type.
fn kind_name(kind: Kind) -> &'static [u8]
    ensures name { result.now ≡ dumps.kind_name kind }
    ensures short { length result.now ≤ 3 }
{
    match kind {
        Kind::I8 => b"i8",
        Kind::I16 => b"i16",
        Kind::I32 => b"i32",
        Kind::F32 | Kind::Vec3 => b"f32",
    }
}

/// A whole number in decimal, or a float's pattern in eight digits.
fn push_value(line: &mut Line, value: Value)
    requires { length line.old.items + 11 ≤ LINE_BYTES }
    ensures bytes { line.new.items ≡ line.old.items ++ dumps.value_text value }
    ensures len { length line.new.items ≤ length line.old.items + 11 }
{
    match value {
        Value::Whole(number) => push_number(line, number),
        Value::Bits(pattern) => push_hex(line, &pattern.to_be_bytes()),
    }
}

/// A row with its value.
fn param_line(row: &Var, value: Value) -> Line
    ensures { result.items ≡ dumps.param_text row.now value }
{
    let mut line = Line::new();
    push(&mut line, b"param ");
    push_name(&mut line, row);
    push(&mut line, b" ");
    push(&mut line, kind_name(row.kind));
    push(&mut line, b" ");
    push_value(&mut line, value);
    push(&mut line, b"\n");
    line
}

/// Writes the line of one row.
fn write_param<K: Sink>(
    out: &mut K,
    bytes: &[u8],
    table: &Table<PARAMETERS>,
    index: u16,
) -> Result<(), Failed>
    requires size { length bytes.now ≡ storage_bytes }
    requires row { index < 240 }
    ensures { (row : Var) × (slice_get table.now index ≡ Some row)
        × Writes K.Sink out.old out.new result (dumps.param_line bytes.now row) }
{
    let line = param_line(&table.row(index), value(bytes, table, index));
    write(out, line.as_slice())
}

/// Writes a line for each row of the table, in its order.
pub(crate) fn write_params<K: Sink>(out: &mut K, bytes: &[u8]) -> Result<(), Failed>
    requires { length bytes.now ≡ storage_bytes }
    ensures { Writes K.Sink out.old out.new result (dumps.param_lines bytes.now) }
{
    let table = vehicle_table();
    for index in 0..ROWS {
        write_param(out, bytes, &table, index)?;
    }
    Ok(())
}
