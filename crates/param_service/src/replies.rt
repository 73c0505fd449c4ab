//! The value of a row, and the PARAM_VALUE that shows it to a station or to all.
ghost use Rattle.std.specs.Prelude.{◌≡◌, ◌<◌, length, slice_get, Some};
ghost use Rattle.storage_lines.specs.declared.lines.TheConstants.{STORAGE_BYTES};
ghost use Rattle.param_tree.specs.Rows.{vehicle_rows};
ghost use Rattle.param_tree.specs.declared.Var.{Var};
ghost use Rattle.param_records.specs.Values.{params_of};
ghost use Rattle.param_index.specs.Places.{IsIndexOf};
ghost use Rattle.param_service.specs.Requests.{parameters};
ghost use Rattle.param_service.specs.Replies.{IsPatternOf, IsReplyOf};

use crate::requests::ROWS;
use mav_messages::{Message, Reply, To};
use param_index::Index;
use param_records::Value;
use param_tree::{PARAMETERS, Table, mav_type_of};
use word_bits::bits_of;

/// The value of a row.
pub fn row_value(
    table: &Table<PARAMETERS>,
    places: &Index<PARAMETERS>,
    current: &[u8],
    row: u16,
) -> Value
    requires rows { table.now ≡ vehicle_rows }
    requires size { length current.now ≡ STORAGE_BYTES }
    requires index { IsIndexOf vehicle_rows current.now places.now }
    requires row { row < parameters }
    ensures { (r : Var) × (slice_get vehicle_rows row ≡ Some r)
        × (result ≡ params_of current.now r) }
{
    places.value(current, table, row)
}

/// The binary32 pattern of a value.
fn pattern_of(value: Value) -> u32
    ensures { IsPatternOf value result }
{
    match value {
        Value::Whole(number) => bits_of(number),
        Value::Bits(bits) => bits,
    }
}

/// The reply that shows a row with this value: its PARAM_VALUE.
pub fn reply(table: &Table<PARAMETERS>, to: To, index: u16, value: Value) -> Reply
    requires rows { table.now ≡ vehicle_rows }
    requires row { index < parameters }
    ensures { IsReplyOf (record { to = to; index = index; value = value }) result }
{
    let row = table.row(index);
    let param_id = row.name;
    Reply {
        to,
        message: Message::ParamValue {
            param_value: pattern_of(value),
            param_count: ROWS,
            param_index: index,
            param_id,
            param_type: mav_type_of(row.kind),
        },
    }
}
