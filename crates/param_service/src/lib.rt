//! The parameter protocol of MAVLink over stored records: reading, listing and setting the 240
//! parameters.
#![tactic(auto)]

ghost use Rattle.std.specs.Prelude.{◌≡◌, ◌<◌, ◌≤◌, ◌↔◌, [], All, IsTrue, false, length, take};
ghost use Rattle.std.specs.Prelude.{slice_index, ℕ, List, Option, option_map};
ghost use Rattle.storage_lines.specs.declared.lines.TheConstants.{STORAGE_BYTES, LINES};
ghost use Rattle.storage_lines.specs.Lines.{after};
ghost use Rattle.param_tree.specs.Rows.{vehicle_rows};
ghost use Rattle.param_records.specs.Steps.{HasMagic};
ghost use Rattle.param_service.specs.Requests.{Request, Show, Asks, IsSetting, parameters, row_asked_for};
ghost use Rattle.param_service.specs.Requests.{row_named};
ghost use Rattle.param_service.specs.Service.{no_lists, did, streamed};
ghost use Rattle.param_service.specs.State.{State, IsIndexed};
ghost use Rattle.param_index.specs.Places.{IsIndexOf};
ghost use Rattle.param_service.specs.Replies.{AreRepliesOf, IsAnswered};

mod budget;
mod laws;
mod replies;
mod requests;
mod setting;

pub use budget::exceeds;
pub use laws::{a_number_or_none, asks_one_thing, one_number};
use mav_messages::{Message, Replies, Sender, To};
use param_index::Index;
use param_records::SET_LINES;
use param_tree::{PARAMETERS, Table, vehicle_table};
use replies::{reply, row_value};
pub use requests::{is_vehicle, sets_parameter};
use requests::{ROWS, row_named, row_of};
use setting::set_row;
use std::marker::Model;
use storage_lines::Batch;

/// The stations that a vehicle tells apart.
pub const STATIONS: usize = 8;

/// How many values of a list are sent at once.
const STRETCH: u16 = 8;

/// The lists that are being sent: for each of the eight stations the next row, or 240 where none
/// is. Beside them, where the records stand in the storage.
#[derive(Drop)]
pub struct ParamState {
    table: Table<PARAMETERS>,
    next_rows: [u16; STATIONS],
    index: Index<PARAMETERS>,
}

impl Model for ParamState {
    ghost use Rattle.param_service.specs.State.{State};
    ghost use Rattle.param_service.specs.Inside.{IsState};

    ghost Value = { State };

    ghost view = { λ state. record { next_rows = state.next_rows; index = state.index } };

    ghost invariant = { λ state. IsState state.table state.next_rows };
}

impl ParamState {
    /// No list is being sent, and the storage has no records.
    pub fn new() -> ParamState
        ensures lists { result.next_rows ≡ no_lists }
        ensures index { (bytes : List ℕ) → ¬ HasMagic bytes → IsIndexed bytes result }
    {
        let table = vehicle_table();
        let index = Index::empty(&table);
        ParamState {
            table,
            next_rows: [ROWS; STATIONS],
            index,
        }
    }

    /// Finds the places of the records of these storage bytes.
    pub fn refresh(&mut self, current: &[u8])
        requires { length current.now ≡ STORAGE_BYTES }
        ensures lists { self.new.next_rows ≡ self.old.next_rows }
        ensures index { IsIndexed current.now self.new }
    {
        self.index = Index::build(current, &self.table);
    }

    /// Whether a list is being sent to a station: where none is, `stream` does nothing.
    pub fn streams(&self, station: u8) -> bool
        requires { station < STATIONS }
        ensures left { IsTrue result ↔ (slice_index self.now.next_rows station < parameters) }
        ensures idle { result ≡ false → (bytes : List ℕ)
            → streamed bytes self.now.next_rows station
            ≡ record { next_rows = self.now.next_rows; writes = []; shown = [] } }
    {
        self.next_rows[station as usize] < ROWS
    }
}

/// Answers PARAM_REQUEST_READ: the value of a row to the station.
fn answer_read(
    table: &Table<PARAMETERS>,
    places: &Index<PARAMETERS>,
    current: &[u8],
    station: u8,
    index: i16,
    name: &[u8; 16],
    replies: &mut Replies,
)
    requires rows { table.now ≡ vehicle_rows }
    requires size { length current.now ≡ STORAGE_BYTES }
    requires index { IsIndexOf vehicle_rows current.now places.now }
    requires replies { replies.old.items ≡ [] }
    ensures { (allowed : Option ℕ) (next_rows : List ℕ) → AreRepliesOf
        (did current.now allowed next_rows station
        (option_map Show (row_asked_for index name.now))).shown
        replies.new.items }
{
    if let Some(row) = row_of(table, index, name) {
        let value = row_value(table, places, current, row);
        replies.push(reply(table, To::Station(station), row, value));
    }
}

/// Answers PARAM_SET: the value that the row then has to all stations.
fn answer_set(
    table: &Table<PARAMETERS>,
    places: &mut Index<PARAMETERS>,
    current: &[u8],
    allowed: Option<u32>,
    station: u8,
    bits: u32,
    name: &[u8; 16],
    batch: &mut Batch,
    replies: &mut Replies,
)
    requires rows { table.now ≡ vehicle_rows }
    requires size { length current.now ≡ STORAGE_BYTES }
    requires index { IsIndexOf vehicle_rows current.now places.old }
    requires batch { batch.old.items ≡ [] }
    requires replies { replies.old.items ≡ [] }
    ensures index { IsIndexOf vehicle_rows (after current.now batch.new.items) places.new }
    ensures answered { (asked : Option Request) × IsSetting (row_named name.now) bits asked
        × ((next_rows : List ℕ)
        → IsAnswered (did current.now allowed next_rows station asked)
        next_rows batch.new.items replies.new.items) }
    ensures within { (limit : ℕ) → allowed ≡ Some limit → length batch.new.items ≤ limit }
    ensures inside { All (λ write. write.line < LINES) batch.new.items }
    ensures few { length batch.new.items ≤ SET_LINES }
    ensures magic { HasMagic current.now
        → (j : ℕ) → HasMagic (after current.now (take j batch.new.items)) }
{
    if let Some(row) = row_named(table, name) {
        let value = set_row(table, places, current, allowed, row, bits, batch);
        replies.push(reply(table, To::All, row, value));
    }
}

/// Answers a message of a station over the current storage bytes: PARAM_REQUEST_READ,
/// PARAM_REQUEST_LIST and PARAM_SET of MAVLink's parameter protocol. Any other message has no
/// answer. `allowed` is how many lines may still be issued while the vehicle is armed, and None
/// where it isn't.
pub fn answer(
    state: &mut ParamState,
    current: &[u8],
    allowed: Option<u32>,
    from: Sender,
    message: &Message,
    batch: &mut Batch,
    replies: &mut Replies,
)
    requires size { length current.now ≡ STORAGE_BYTES }
    requires index { IsIndexed current.now state.old }
    requires station { from.station < STATIONS }
    requires batch { batch.old.items ≡ [] }
    requires replies { replies.old.items ≡ [] }
    ensures answered { (asked : Option Request) × Asks message.now asked
        × IsAnswered (did current.now allowed state.old.next_rows from.station asked)
        state.new.next_rows batch.new.items replies.new.items }
    ensures index { IsIndexed (after current.now batch.new.items) state.new }
    ensures within { (limit : ℕ) → allowed ≡ Some limit → length batch.new.items ≤ limit }
    ensures inside { All (λ write. write.line < LINES) batch.new.items }
    ensures few { length batch.new.items ≤ SET_LINES }
    ensures magic { HasMagic current.now
        → (j : ℕ) → HasMagic (after current.now (take j batch.new.items)) }
{
    match message {
        Message::ParamRequestRead {
            param_index,
            target_system,
            target_component,
            param_id,
        } => {
            let index = *param_index;
            if is_vehicle(*target_system, *target_component) {
                answer_read(
                    &state.table,
                    &state.index,
                    current,
                    from.station,
                    index,
                    param_id,
                    replies,
                );
            }
        }
        Message::ParamRequestList {
            target_system,
            target_component,
        } => {
            if is_vehicle(*target_system, *target_component) {
                state.next_rows[from.station as usize] = 0;
            }
        }
        Message::ParamSet {
            param_value,
            target_system,
            target_component,
            param_id,
            param_type: _,
        } => {
            if is_vehicle(*target_system, *target_component) {
                answer_set(
                    &state.table,
                    &mut state.index,
                    current,
                    allowed,
                    from.station,
                    *param_value,
                    param_id,
                    batch,
                    replies,
                );
            }
        }
        _ => {}
    }
}

/// The next eight values of the list that is being sent to a station, or those that are left.
pub fn stream(state: &mut ParamState, current: &[u8], station: u8, replies: &mut Replies)
    requires size { length current.now ≡ STORAGE_BYTES }
    requires index { IsIndexed current.now state.old }
    requires station { station < STATIONS }
    requires replies { replies.old.items ≡ [] }
    ensures next { state.new ≡ record state.old {
      next_rows = (streamed current.now state.old.next_rows station).next_rows;
    } }
    ensures shown { AreRepliesOf (streamed current.now state.old.next_rows station).shown
        replies.new.items }
{
    let next = state.next_rows[station as usize];
    let end = ROWS.min(next + STRETCH);
    for row in next..end {
        let value = row_value(&state.table, &state.index, current, row);
        replies.push(reply(&state.table, To::Station(station), row, value));
    }
    state.next_rows[station as usize] = end;
}

#[cfg(test)]
mod tests;
