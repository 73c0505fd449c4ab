//! Reading the mission: how many commands it has, and which.
ghost use Rattle.std.specs.Prelude.{◌≡◌, ◌<◌, ◌≤◌, ◌↔◌, min, length, IsNone, IsTrue, slice_get};
ghost use Rattle.mission_records.specs.Mission.{mission_area, count_of, total_of, place_of_command};
ghost use Rattle.mission_records.specs.Mission.{bytes_at, command_of, mission_of};
ghost use Rattle.mission_records.specs.Steps.{HasVersion, IsTotalInOneLine};

use mission_commands::Command;
use param_records::{Value, place, value};
use param_tree::vehicle_table;
use storage_lines::{Area, STORAGE_BYTES, read};

/// How many commands the mission's area has room for.
pub const CAPACITY: u16 = 308;

/// The limit has this number.
pub fn limits()
    ensures { CAPACITY ≡ 308 }
{}

/// The index of MIS_TOTAL in the vehicle's table.
pub const TOTAL_INDEX: u16 = 5;

/// What the mission's area begins with.
pub const VERSION: [u8; 4] = [0xAE, 0x65, 0, 0];

/// The bytes of a stored command.
pub const COMMAND_BYTES: usize = 15;

/// Where the command with an index stands in the mission's area.
pub fn place_of_command(index: u16) -> u16
    requires inside { index < CAPACITY }
    ensures { result ≡ place_of_command index }
{
    4 + 15 * index
}

/// Whether the mission's area begins with the version.
fn has_version(current: &[u8]) -> bool
    requires size { length current.now ≡ STORAGE_BYTES }
    ensures { IsTrue result ↔ HasVersion current.now }
{
    let mut bytes = [0; 4];
    read(Area::Mission, 0, current, &mut bytes);
    bytes == VERSION
}

/// How many commands a value of MIS_TOTAL says.
fn count_of(value: Value) -> u16
    ensures count { result ≡ min CAPACITY (count_of value) }
    ensures most { result ≤ CAPACITY }
{
    match value {
        Value::Whole(number) => {
            if number < 0 {
                0
            } else if number > CAPACITY as i32 {
                CAPACITY
            } else {
                number as u16
            }
        }
        Value::Bits(_) => 0,
    }
}

/// How many commands are stored: what MIS_TOTAL says, none where it is negative or the version is
/// wrong.
pub fn total(current: &[u8]) -> u16
    requires size { length current.now ≡ STORAGE_BYTES }
    ensures total { result ≡ total_of current.now }
    ensures most { result ≤ CAPACITY }
{
    if !has_version(current) {
        return 0;
    }
    count_of(value(current, &vehicle_table(), TOTAL_INDEX))
}

/// The command in fifteen bytes.
fn command_of(bytes: &[u8; COMMAND_BYTES]) -> Command
    ensures { result ≡ command_of bytes.now }
{
    let mut content = [0; 12];
    if bytes[0] == 1 {
        content[..10].copy_from_slice(&bytes[5..]);
        Command {
            id: bytes[1] as u16 + 0x100 * bytes[2] as u16,
            p1: bytes[3] as u16 + 0x100 * bytes[4] as u16,
            content,
        }
    } else {
        content.copy_from_slice(&bytes[3..]);
        Command {
            id: bytes[0] as u16,
            p1: bytes[1] as u16 + 0x100 * bytes[2] as u16,
            content,
        }
    }
}

/// The bytes of the command with an index.
fn bytes_at(current: &[u8], index: u16) -> [u8; COMMAND_BYTES]
    requires size { length current.now ≡ STORAGE_BYTES }
    requires inside { index < CAPACITY }
    ensures { result ≡ bytes_at index (mission_area current.now) }
{
    let mut bytes = [0; COMMAND_BYTES];
    read(Area::Mission, place_of_command(index), current, &mut bytes);
    bytes
}

/// The command with an index, or None where the mission has none there.
pub fn at(current: &[u8], index: u16) -> Option<Command>
    requires size { length current.now ≡ STORAGE_BYTES }
    ensures command { result ≡ slice_get (mission_of current.now) index }
    ensures none { IsNone result ↔ (total_of current.now ≤ index) }
{
    if index >= total(current) {
        return None;
    }
    Some(command_of(&bytes_at(current, index)))
}

/// Whether a record of MIS_TOTAL is there, with both bytes of its value in one line.
pub fn total_in_one_line(current: &[u8]) -> bool
    requires size { length current.now ≡ STORAGE_BYTES }
    ensures { IsTrue result ↔ IsTotalInOneLine current.now }
{
    let row = vehicle_table().row(TOTAL_INDEX);
    match place(current, row.key, row.element, row.kind) {
        Some(at) => at % 8 != 7,
        None => false,
    }
}
