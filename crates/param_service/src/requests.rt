//! Which messages are for the vehicle, and which rows they name: by an index, or by a name that may
//! lack its zeros.
ghost use Rattle.std.specs.Prelude.{◌≡◌, ◌<◌, IfSome};
ghost use Rattle.param_tree.specs.Rows.{vehicle_rows};
ghost use Rattle.param_service.specs.Requests.{is_for, parameters, row_named, row_asked_for};
ghost use Rattle.param_service.specs.Requests.{sets_parameter};

use mav_messages::Message;
use param_tree::{PARAMETERS, Table, name_in};

/// How many rows the table has.
pub const ROWS: u16 = PARAMETERS as u16;

/// The vehicle's system, and its component.
const VEHICLE: u8 = 1;

/// The index of PARAM_REQUEST_READ with which the name counts.
const BY_NAME: i16 = -1;

/// Whether a message with this target is for the vehicle: 0 is everybody.
pub fn is_vehicle(system: u8, component: u8) -> bool
    ensures { result ≡ is_for system component }
{
    system <= VEHICLE && component <= VEHICLE
}

/// Whether a message is a PARAM_SET: no other one makes the parameter protocol write.
pub fn sets_parameter(message: &Message) -> bool
    ensures { result ≡ sets_parameter message.now }
{
    matches!(message, Message::ParamSet { .. })
}

/// The row with a name.
pub fn row_named(table: &Table<PARAMETERS>, name: &[u8; 16]) -> Option<u16>
    requires { table.now ≡ vehicle_rows }
    ensures row { result ≡ row_named name.now }
    ensures inside { IfSome result (λ row. row < parameters) }
{
    table.rules();
    table.find(name_in(name))
}

/// The row with an index, or with a name where the index is -1.
pub fn row_of(table: &Table<PARAMETERS>, index: i16, name: &[u8; 16]) -> Option<u16>
    requires { table.now ≡ vehicle_rows }
    ensures row { result ≡ row_asked_for index name.now }
    ensures inside { IfSome result (λ row. row < parameters) }
{
    if index == BY_NAME {
        row_named(table, name)
    } else if index >= 0 && index < ROWS as i16 {
        Some(index as u16)
    } else {
        None
    }
}
