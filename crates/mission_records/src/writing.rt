//! The line writes that begin a mission, put a command, or clear the mission. They come after those
//! of the batch, and go over the storage with these applied.
ghost use Rattle.std.specs.Prelude.{◌≡◌, ◌<◌, ◌≤◌, ◌+◌, ◌++◌, ◌↔◌, length, drop, OnOk, OnErr};
ghost use Rattle.std.specs.Prelude.{IfErr, IsErr};
ghost use Rattle.arrayvec.specs.ArrayVec.{array_vec_len};
ghost use Rattle.storage_lines.specs.declared.areas.Area.TheVariants.{Mission, Param};
ghost use Rattle.storage_lines.specs.Areas.{size_of_area, logical_of};
ghost use Rattle.storage_lines.specs.Bytes.{HaveBytes, AreInside};
ghost use Rattle.storage_lines.specs.Lines.{after};
ghost use Rattle.storage_lines.specs.Pieces.{writes_of_piece};
ghost use Rattle.param_tree.specs.Rows.{vehicle_rows};
ghost use Rattle.param_records.specs.Records.{end_of};
ghost use Rattle.param_records.specs.Changes.{IsFull, SamePlaces};
ghost use Rattle.param_records.specs.Steps.{records_in_storage};
ghost use Rattle.mission_commands.specs.Storable.{IsStorable};
ghost use Rattle.mission_records.specs.Mission.{total_row, command_bytes, mission_of, total_writes};
ghost use Rattle.mission_records.specs.Mission.{begin_writes, put_writes};
ghost use Rattle.mission_records.specs.Steps.{IsFormatted, HasVersion, Clears, BeginsMission, PutsCommand};

use crate::reading::{CAPACITY, COMMAND_BYTES, TOTAL_INDEX, VERSION, place_of_command};
use mission_commands::Command;
use param_records::{SET_LINES, SetError, set_whole};
use param_tree::vehicle_table;
use storage_lines::{Area, BATCH_LINES, Batch, STORAGE_BYTES, split};

/// The line writes for which a batch must have places before a mission begins or a command is put.
pub const MISSION_LINES: usize = 16;

/// The most line writes of a command's bytes or of the version.
const PIECE_LINES: usize = 8;

/// A command's fifteen bytes.
fn command_bytes(command: &Command) -> [u8; COMMAND_BYTES]
    ensures { result ≡ command_bytes command.now }
{
    let (number, parameter) = (command.id, command.p1);
    let id = (number % 0x100) as u8;
    let id_high = (number / 0x100) as u8;
    let p1 = (parameter % 0x100) as u8;
    let p1_high = (parameter / 0x100) as u8;
    let mut bytes = [0; COMMAND_BYTES];
    if number < 0x100 {
        bytes[0] = id;
        bytes[1] = p1;
        bytes[2] = p1_high;
        bytes[3..].copy_from_slice(&command.content);
    } else {
        bytes[0] = 1;
        bytes[1] = id;
        bytes[2] = id_high;
        bytes[3] = p1;
        bytes[4] = p1_high;
        bytes[5..].copy_from_slice(&command.content[..10]);
    }
    bytes
}

/// Puts bytes into the mission's area.
fn put_bytes(at: u16, bytes: &[u8], current: &[u8], batch: &mut Batch)
    requires size { length current.now ≡ STORAGE_BYTES }
    requires inside { at + length bytes.now ≤ size_of_area Mission }
    requires short { length bytes.now ≤ COMMAND_BYTES }
    requires room { array_vec_len batch.old + PIECE_LINES ≤ BATCH_LINES }
    ensures items { batch.new.items ≡ batch.old.items
        ++ writes_of_piece Mission at bytes.now (after current.now batch.old.items) }
    ensures few { array_vec_len batch.new ≤ array_vec_len batch.old + PIECE_LINES }
    ensures inside { AreInside batch.old.items → AreInside batch.new.items }
    ensures bytes { HaveBytes batch.old.items → HaveBytes batch.new.items }
{
    match split(Area::Mission, at, bytes, current, batch) {
        Ok(()) => {}
        Err(_) => unreachable!(),
    }
}

/// Sets MIS_TOTAL.
fn set_total(current: &[u8], number: u16, batch: &mut Batch) -> Result<(), SetError>
    requires size { length current.now ≡ STORAGE_BYTES }
    requires most { number ≤ CAPACITY }
    requires room { array_vec_len batch.old + SET_LINES ≤ BATCH_LINES }
    requires stand { SamePlaces vehicle_rows current.now (after current.now batch.old.items) }
    ensures ok { OnOk result (batch.new.items ≡ batch.old.items
        ++ total_writes (after current.now batch.old.items) number) }
    ensures err { OnErr result (batch.new ≡ batch.old) }
    ensures full { let before = after current.now batch.old.items in
        IsErr result ↔ IsFull (records_in_storage before) total_row number }
    ensures end { IfErr result (λ e.
        e ≡ SetError.Full (end_of (logical_of Param (after current.now batch.old.items)))) }
    ensures few { array_vec_len batch.new ≤ array_vec_len batch.old + SET_LINES }
    ensures inside { AreInside batch.old.items → AreInside batch.new.items }
    ensures bytes { HaveBytes batch.old.items → HaveBytes batch.new.items }
{
    let whole = i32::from(number);
    set_whole(current, &vehicle_table(), TOTAL_INDEX, whole, batch)
}

/// Appends the writes that begin a mission, which has no commands: MIS_TOTAL becomes 0, and then
/// the version is written.
pub fn begin(current: &[u8], batch: &mut Batch)
    requires size { length current.now ≡ STORAGE_BYTES }
    requires room { array_vec_len batch.old + MISSION_LINES ≤ BATCH_LINES }
    requires stand { SamePlaces vehicle_rows current.now (after current.now batch.old.items) }
    ensures writes { batch.new.items ≡ batch.old.items
        ++ begin_writes (after current.now batch.old.items) }
    ensures steps { let before = after current.now batch.old.items in
        IsFormatted before → BeginsMission before (drop (array_vec_len batch.old) batch.new.items) }
    ensures few { array_vec_len batch.new ≤ array_vec_len batch.old + MISSION_LINES }
    ensures inside { AreInside batch.old.items → AreInside batch.new.items }
    ensures bytes { HaveBytes batch.old.items → HaveBytes batch.new.items }
{
    clear(current, batch);
    put_bytes(0, &VERSION, current, batch);
}

/// Appends the writes that clear the mission: MIS_TOTAL becomes 0.
pub fn clear(current: &[u8], batch: &mut Batch)
    requires size { length current.now ≡ STORAGE_BYTES }
    requires room { array_vec_len batch.old + SET_LINES ≤ BATCH_LINES }
    requires stand { SamePlaces vehicle_rows current.now (after current.now batch.old.items) }
    ensures writes { batch.new.items ≡ batch.old.items
        ++ total_writes (after current.now batch.old.items) 0 }
    ensures steps { let before = after current.now batch.old.items in
        IsFormatted before → Clears before (drop (array_vec_len batch.old) batch.new.items) }
    ensures few { array_vec_len batch.new ≤ array_vec_len batch.old + SET_LINES }
    ensures inside { AreInside batch.old.items → AreInside batch.new.items }
    ensures bytes { HaveBytes batch.old.items → HaveBytes batch.new.items }
{
    match set_total(current, 0, batch) {
        Ok(()) => {}
        Err(_) => unreachable!(),
    }
}

/// Appends the writes that put a command at an index: its bytes, and then MIS_TOTAL as the index
/// plus one.
///
/// `SetError::Full` comes where MIS_TOTAL has no record and none fits; it is never
/// `SetError::Range`.
pub fn put(current: &[u8], index: u16, command: &Command, batch: &mut Batch) -> Result<(), SetError>
    requires size { length current.now ≡ STORAGE_BYTES }
    requires index { index < CAPACITY }
    requires room { array_vec_len batch.old + MISSION_LINES ≤ BATCH_LINES }
    requires stand { SamePlaces vehicle_rows current.now (after current.now batch.old.items) }
    ensures ok { let before = after current.now batch.old.items in
        OnOk result (batch.new.items ≡ batch.old.items ++ put_writes before index command.now) }
    ensures err { OnErr result (batch.new ≡ batch.old) }
    ensures full { let before = after current.now batch.old.items in
        IsErr result ↔ IsFull (records_in_storage before) total_row (index + 1) }
    ensures end { IfErr result (λ e.
        e ≡ SetError.Full (end_of (logical_of Param (after current.now batch.old.items)))) }

    // At the end of the mission a command is put whole, or not at all.
    ensures steps { let before = after current.now batch.old.items in
        OnOk result (IsFormatted before → HasVersion before → IsStorable command.now
        → index ≡ length (mission_of before)
        → PutsCommand command.now before (drop (array_vec_len batch.old) batch.new.items)) }

    // Whatever is answered.
    ensures few { array_vec_len batch.new ≤ array_vec_len batch.old + MISSION_LINES }
    ensures inside { AreInside batch.old.items → AreInside batch.new.items }
    ensures bytes { HaveBytes batch.old.items → HaveBytes batch.new.items }
{
    let old = batch.len();
    let bytes = command_bytes(command);
    put_bytes(place_of_command(index), &bytes, current, batch);
    let result = set_total(current, index + 1, batch);
    if result.is_err() {
        batch.truncate(old);
    }
    result
}
