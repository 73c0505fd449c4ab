//! The value of a row: that of the first record that matches, else the table's default.
ghost use Rattle.std.specs.Prelude.{◌≡◌, ◌<◌, IfSome, length, slice_get};
ghost use Rattle.param_records.specs.Values.{params_of};

use crate::records::{place, size_of};
use crate::values::{Value, default_value, value_of};
use param_tree::Table;
use storage_lines::{Area, STORAGE_BYTES, read};

/// The value of a row: of the first record of its key, element and kind, at its part, else its
/// default.
pub fn value<const N: usize>(current: &[u8], table: &Table<N>, var: u16) -> Value
    requires size { length current.now ≡ STORAGE_BYTES }
    requires row { var < N }
    ensures { IfSome (slice_get table.now var) (λ row. result ≡ params_of current.now row) }
{
    let row = table.row(var);
    match place(current, row.key, row.element, row.kind) {
        None => default_value(row.kind, row.default),
        Some(at) => {
            let mut bytes = [0; 12];
            let size = size_of(row.kind);
            read(Area::Param, at, current, &mut bytes[..size]);
            value_of(row.kind, row.part, &bytes)
        }
    }
}
