//! The vehicle machine without its storage and its link: one message, one idle turn, one stretch of
//! a list. Each protocol is a service of its own below.
#![tactic(auto)]

ghost use Rattle.std.specs.Prelude.{◌≡◌, ◌⊎◌, ◌<◌, ◌≤◌, ◌+◌, [], All, length, take, List, ℕ, true};
ghost use Rattle.std.specs.Prelude.{◌↔◌, false, Option, None, IsFalse, IsTrue, IfSome, slice_index};
ghost use Rattle.storage_lines.specs.declared.lines.TheConstants.{STORAGE_BYTES, LINES};
ghost use Rattle.storage_lines.specs.declared.lines.TheConstants.{BATCH_LINES};
ghost use Rattle.storage_lines.specs.Lines.{after};
ghost use Rattle.param_records.specs.Steps.{HasMagic};
ghost use Rattle.param_service.specs.declared.TheConstants.{STATIONS};
ghost use Rattle.param_service.specs.Requests as parameters;
ghost use Rattle.mission_service.specs.Requests as missions;
ghost use Rattle.mission_service.specs.Replies.{target_of};
ghost use Rattle.vehicle_core.specs.Orders as orders;
ghost use Rattle.vehicle_core.specs.CoreState.{CoreState, IsIndexed};
ghost use Rattle.vehicle_core.specs.Vehicle.{Asked, Asks, Alive, new_vehicle, is_heard, is_armed};
ghost use Rattle.vehicle_core.specs.Vehicle.{speaks_v2, allowed_of, issues};
ghost use Rattle.vehicle_core.specs.Acts.{Said, Beat, Stream, SinceArming, heard_as, nothing};
ghost use Rattle.vehicle_core.specs.Acts.{asked_of, ordered, did};
ghost use Rattle.vehicle_core.specs.Replies.{AreRepliesOf, IsAnswered, Tells};

mod laws;
mod orders;

pub use laws::{acknowledges, asks_one_thing, counts_lines};
use mav_messages::{Message, Replies, Reply, Sender, To};
use mission_service::MissionState;
pub use orders::{Need, Order, VehicleCommand};
use orders::{acknowledgement, command_of, need_of};
pub use param_service::sets_parameter;
use param_service::{ParamState, STATIONS, stream};
use std::marker::Model;
use storage_lines::Batch;

/// What is known of a station.
#[derive(Clone, Copy, Debug, PartialEq, Eq)]
struct StationState {
    heard: bool,
    v2: bool,
}

/// The vehicle's state: its eight stations, the lists that are being sent, the uploads, and, where
/// it is armed, how many lines were issued since. Beside it, where the parameter records stand in
/// the storage.
#[derive(Drop)]
pub struct Core {
    stations: [StationState; STATIONS],
    parameters: ParamState,
    missions: MissionState,
    armed: Option<u32>,
}

impl Model for Core {
    ghost use Rattle.std.specs.Prelude.{◌≡◌, length};
    ghost use Rattle.param_service.specs.declared.TheConstants.{STATIONS};
    ghost use Rattle.vehicle_core.specs.CoreState.{CoreState};
    ghost use Rattle.vehicle_core.specs.Inside.{view_of};

    ghost Value = { CoreState };

    ghost view = { λ core. record {
      vehicle = view_of core.stations core.parameters.next_rows core.missions core.armed;
      index = core.parameters.index;
    } };

    ghost invariant = { λ core. length core.stations ≡ STATIONS };
}

/// The vehicle's HEARTBEAT, with numbers of MAVLink's common message set: a quadrotor (MAV_TYPE 2)
/// with ArduPilot (MAV_AUTOPILOT 3), armed (MAV_MODE_FLAG 129, MAV_STATE 4) or not (1, 3), in
/// version 3 of the protocol.
fn heartbeat(armed: bool) -> Message
    ensures { Tells (Alive armed) result }
{
    let (base_mode, system_status) = if armed { (129, 4) } else { (1, 3) };
    Message::Heartbeat {
        custom_mode: 0,
        kind: 2,
        autopilot: 3,
        base_mode,
        system_status,
        mavlink_version: 3,
    }
}

/// Whether a message is one of those that ask the parameter protocol for something.
fn asks_parameters(message: &Message) -> bool
    ensures parameters { result ≡ false → parameters.Asks message.now None }
    ensures missions { result ≡ true → missions.Asks message.now None }
    ensures sets { result ≡ false → parameters.sets_parameter message.now ≡ false }
{
    match message {
        Message::ParamRequestRead { .. }
        | Message::ParamRequestList { .. }
        | Message::ParamSet { .. } => true,
        _ => false,
    }
}

impl Core {
    /// No station was heard, the vehicle isn't armed, and the storage has no parameter records.
    pub fn new() -> Core
        ensures vehicle { result.vehicle ≡ new_vehicle }
        ensures index { (bytes : List ℕ) → ¬ HasMagic bytes → IsIndexed bytes result }
    {
        let unheard = StationState {
            heard: false,
            v2: false,
        };
        Core {
            stations: [unheard; STATIONS],
            parameters: ParamState::new(),
            missions: MissionState::new(),
            armed: None,
        }
    }

    /// Finds the places of the parameter records of these storage bytes.
    pub fn refresh(&mut self, current: &[u8])
        requires { length current.now ≡ STORAGE_BYTES }
        ensures vehicle { self.new.vehicle ≡ self.old.vehicle }
        ensures index { IsIndexed current.now self.new }
    {
        self.parameters.refresh(current);
    }

    /// How many lines may still be issued while the vehicle is armed.
    fn allowed(&self, budget: u32) -> Option<u32>
        ensures { result ≡ allowed_of budget self.now.vehicle }
    {
        match self.armed {
            Some(since) => Some(budget.saturating_sub(since)),
            None => None,
        }
    }

    /// Counts lines that are issued.
    fn count(&mut self, batch: &Batch)
        requires { IfSome self.old.vehicle.armed
            (λ since. since + length batch.now.items ≤ u32.MAX) }
        ensures { self.new ≡
            record self.old { vehicle = issues self.old.vehicle batch.now.items } }
    {
        if let Some(since) = self.armed {
            self.armed = Some(since + batch.len() as u32);
        }
    }

    /// Has one of the protocols answer a message.
    fn serve(
        &mut self,
        current: &[u8],
        budget: u32,
        from: Sender,
        message: &Message,
        batch: &mut Batch,
        replies: &mut Replies,
    )
        requires size { length current.now ≡ STORAGE_BYTES }
        requires index { IsIndexed current.now self.old }
        requires station { from.station < STATIONS }
        requires order { orders.vehicle_command_of message.now ≡ None }
        requires batch { batch.old.items ≡ [] }
        requires replies { replies.old.items ≡ [] }
        ensures answered { (asked : Option Asked) × Asks (target_of from) message.now asked ×
            IsAnswered (asked_of budget current.now self.old.vehicle from.station asked)
            self.new.vehicle batch.new.items replies.new.items orders.Nothing }
        ensures index { (parameters.sets_parameter message.now ≡ true) ⊎ (batch.new.items ≡ [])
            → IsIndexed (after current.now batch.new.items) self.new }
        ensures armed { self.new.vehicle.armed ≡ self.old.vehicle.armed }
        ensures allowed { IfSome (allowed_of budget self.old.vehicle)
            (λ limit. length batch.new.items ≤ limit) }
        ensures inside { All (λ write. write.line < LINES) batch.new.items }
        ensures few { length batch.new.items ≤ BATCH_LINES }
        ensures magic { HasMagic current.now → (j : ℕ) →
            HasMagic (after current.now (take j batch.new.items)) }
    {
        let allowed = self.allowed(budget);
        if asks_parameters(message) {
            param_service::answer(
                &mut self.parameters,
                current,
                allowed,
                from,
                message,
                batch,
                replies,
            );
        } else {
            mission_service::answer(
                &mut self.missions,
                current,
                allowed,
                from,
                message,
                batch,
                replies,
            );
        }
    }

    /// Does what a command orders, but for what is needed before its answer is sent.
    fn obey(&mut self, from: Sender, command: VehicleCommand, replies: &mut Replies) -> Need
        requires { replies.old.items ≡ [] }
        ensures answered { IsAnswered (ordered self.old.vehicle from.station (target_of from)
            command.number command.order) self.new.vehicle [] replies.new.items result }
        ensures index { self.new.index ≡ self.old.index }
    {
        match command.order {
            Order::Arm => self.armed = Some(self.armed.unwrap_or(0)),
            Order::Disarm => self.armed = None,
            Order::Flush | Order::Deny | Order::Refuse => {}
        }
        replies.push(Reply {
            to: To::Station(from.station),
            message: acknowledgement(from, command),
        });
        need_of(command.order)
    }

    /// Answers the message of a right frame, over the current storage bytes: the lines to issue,
    /// and the replies to send after them and after what is needed. So many lines may be issued
    /// while the vehicle is armed.
    pub fn message(
        &mut self,
        current: &[u8],
        budget: u32,
        from: Sender,
        v2: bool,
        message: &Message,
        batch: &mut Batch,
        replies: &mut Replies,
    ) -> Need
        requires size { length current.now ≡ STORAGE_BYTES }
        requires index { IsIndexed current.now self.old }
        requires station { from.station < STATIONS }
        requires batch { batch.old.items ≡ [] }
        requires replies { replies.old.items ≡ [] }
        ensures answered { (asked : Option Asked) × Asks (target_of from) message.now asked ×
            IsAnswered
            (did budget current.now self.old.vehicle (Said from.station (heard_as v2 asked)))
            self.new.vehicle batch.new.items replies.new.items result }
        ensures index { (parameters.sets_parameter message.now ≡ true) ⊎ (batch.new.items ≡ [])
            → IsIndexed (after current.now batch.new.items) self.new }
        ensures within { SinceArming budget self.old.vehicle.armed self.new.vehicle.armed
            batch.new.items result }
        ensures inside { All (λ write. write.line < LINES) batch.new.items }
        ensures few { length batch.new.items ≤ BATCH_LINES }
        ensures magic { HasMagic current.now → (j : ℕ) →
            HasMagic (after current.now (take j batch.new.items)) }
    {
        self.stations[from.station as usize] = StationState { heard: true, v2 };
        if let Some(command) = command_of(message) {
            return self.obey(from, command, replies);
        }
        self.serve(current, budget, from, message, batch, replies);
        self.count(batch);
        Need::Nothing
    }

    /// What an idle turn tells a station, where it was heard: that the vehicle is there and whether
    /// it is armed, and which item of each of its open uploads is the next.
    pub fn idle(&mut self, station: u8, replies: &mut Replies)
        requires station { station < STATIONS }
        requires replies { replies.old.items ≡ [] }
        ensures next { (budget : ℕ) →
            self.new.vehicle ≡ (did budget [] self.old.vehicle (Beat station)).vehicle }
        ensures index { self.new.index ≡ self.old.index }
        ensures told { (budget : ℕ) →
            AreRepliesOf (did budget [] self.old.vehicle (Beat station)).told replies.new.items }
    {
        if self.heard(station) {
            replies.push(Reply {
                to: To::Station(station),
                message: heartbeat(self.armed()),
            });
            mission_service::idle(&mut self.missions, station, replies);
        }
    }

    /// The next values of the list that is being sent to a station.
    pub fn stream(&mut self, current: &[u8], station: u8, replies: &mut Replies)
        requires size { length current.now ≡ STORAGE_BYTES }
        requires index { IsIndexed current.now self.old }
        requires station { station < STATIONS }
        requires replies { replies.old.items ≡ [] }
        ensures next { (budget : ℕ) → self.new.vehicle
            ≡ (did budget current.now self.old.vehicle (Stream station)).vehicle }
        ensures index { self.new.index ≡ self.old.index }
        ensures told { (budget : ℕ) → AreRepliesOf (did budget current.now self.old.vehicle
            (Stream station)).told replies.new.items }
    {
        if !self.heard(station) {
            return;
        }
        stream(&mut self.parameters, current, station, replies);
    }

    /// Whether a list goes to the station: it was heard, and values of its list are left.
    pub fn streams(&self, station: u8) -> bool
        requires { station < STATIONS }
        ensures left { IsTrue result ↔ IsTrue (is_heard self.now.vehicle station)
            × (slice_index self.now.vehicle.next_rows station < parameters.parameters) }
        ensures idle { IsFalse result → (budget : ℕ) (bytes : List ℕ) →
            did budget bytes self.now.vehicle (Stream station) ≡ nothing self.now.vehicle }
    {
        let heard = self.heard(station);
        if !heard {
            return false;
        }
        self.parameters.streams(station)
    }

    /// Whether the vehicle is armed.
    pub fn armed(&self) -> bool
        ensures { result ≡ is_armed self.now.vehicle }
    {
        self.armed.is_some()
    }

    /// Whether a right frame came from the station.
    pub fn heard(&self, station: u8) -> bool
        requires { station < STATIONS }
        ensures { result ≡ is_heard self.now.vehicle station }
    {
        self.stations[station as usize].heard
    }

    /// Whether the station's last right frame was of version 2.
    pub fn version_two(&self, station: u8) -> bool
        requires { station < STATIONS }
        ensures { result ≡ speaks_v2 self.now.vehicle station }
    {
        self.stations[station as usize].v2
    }
}

#[cfg(test)]
mod tests;
