//! What a message asks of the missions.
ghost use Rattle.std.specs.Prelude.{◌≡◌, ◌==◌, None, if◌then◌else◌};
ghost use Rattle.mission_service.specs.Uploads.{mission_type_number, type_of};
ghost use Rattle.mission_service.specs.Requests as asks;
ghost use Rattle.mission_service.specs.Requests.{Asks, IsGiven, ask, of_type, if_for, if_supported};
ghost use Rattle.mission_service.specs.Requests.{types_of, operation_cancelled};
ghost use Rattle.mission_service.specs.Steps.Inside.{asking_seen, request_seen};

use crate::replies::OPERATION_CANCELLED;
use fence_records::{FenceItem, from_item};
use mav_messages::Message;
use mission_commands::{Command, Item, to_command};
use param_service::is_vehicle;

/// MAV_MISSION_TYPE_ALL.
const ALL_TYPES: u8 = 255;

/// MAV_MISSION_TYPE of MAVLink's common message set: the types that are supported.
#[derive(Clone, Copy, Drop)]
pub enum MissionType {
    Mission,
    Fence,
}

/// What is stored of an item that was sent, or the answer that refuses it.
#[derive(Clone, Copy, Drop)]
pub enum Given {
    ForMission(Result<Command, u8>),
    ForFence(Result<FenceItem, u8>),
}

/// To open an upload of so many items, to take an item, to clear a type or all, to tell how many
/// items there are, to show one, to close an upload; or something of a type that isn't supported.
#[derive(Clone, Copy, Drop)]
pub enum Request {
    Begin(MissionType, u16),
    Give(u16, Given),
    Clear(Option<MissionType>),
    Count(MissionType),
    Show(MissionType, u16),
    Cancel(MissionType),
    Unsupported,
}

/// A request, and the number of its type, which each answer has.
#[derive(Clone, Copy, Drop)]
pub struct Asking {
    pub number: u8,
    pub request: Request,
}

/// The number of a type.
pub fn number_of(kind: MissionType) -> u8
    ensures { result ≡ mission_type_number kind }
{
    match kind {
        MissionType::Mission => 0,
        MissionType::Fence => 1,
    }
}

/// The supported type with a number.
fn type_of(number: u8) -> Option<MissionType>
    ensures { result ≡ type_of number }
{
    match number {
        0 => Some(MissionType::Mission),
        1 => Some(MissionType::Fence),
        _ => None,
    }
}

/// A request of the type with a number, where the message is for the vehicle.
fn ask(system: u8, component: u8, number: u8, request: Request) -> Option<Asking>
    ensures { asking_seen result
        ≡ if_for system component (ask number (request_seen request)) }
{
    if is_vehicle(system, component) {
        Some(Asking { number, request })
    } else {
        None
    }
}

/// MISSION_COUNT asks for an upload.
fn asks_upload(number: u8, count: u16) -> Request
    ensures { request_seen result ≡ of_type (type_of number) (λ t. asks.Begin t count) }
{
    match type_of(number) {
        Some(kind) => Request::Begin(kind, count),
        None => Request::Unsupported,
    }
}

/// MISSION_ITEM_INT gives an item.
fn gives_item(number: u8, item: &Item) -> Request
    ensures { IsGiven (type_of number) item.now (request_seen result) }
{
    match type_of(number) {
        Some(MissionType::Mission) => {
            Request::Give(item.seq, Given::ForMission(to_command(item)))
        }
        Some(MissionType::Fence) => Request::Give(item.seq, Given::ForFence(from_item(item))),
        None => Request::Unsupported,
    }
}

/// MISSION_CLEAR_ALL asks to clear a type, or all.
fn asks_clearing(number: u8) -> Request
    ensures { request_seen result ≡ types_of number }
{
    if number == ALL_TYPES {
        return Request::Clear(None);
    }
    match type_of(number) {
        Some(kind) => Request::Clear(Some(kind)),
        None => Request::Unsupported,
    }
}

/// MISSION_REQUEST_LIST asks how many items there are.
fn asks_count(number: u8) -> Request
    ensures { request_seen result ≡ of_type (type_of number) (λ t. asks.Count t) }
{
    match type_of(number) {
        Some(kind) => Request::Count(kind),
        None => Request::Unsupported,
    }
}

/// MISSION_REQUEST_INT and MISSION_REQUEST ask for an item.
fn asks_item(number: u8, seq: u16) -> Request
    ensures { request_seen result ≡ of_type (type_of number) (λ t. asks.Show t seq) }
{
    match type_of(number) {
        Some(kind) => Request::Show(kind, seq),
        None => Request::Unsupported,
    }
}

/// MISSION_ACK of an operation that is cancelled asks to close an upload; no other asks for
/// anything.
fn asks_cancelling(system: u8, component: u8, answer: u8, number: u8) -> Option<Asking>
    ensures { asking_seen result ≡ if_for system component
        (if answer == operation_cancelled
        then if_supported (type_of number) (λ t. ask number (asks.Cancel t)) else None) }
{
    if answer != OPERATION_CANCELLED {
        return None;
    }
    match type_of(number) {
        Some(kind) => ask(system, component, number, Request::Cancel(kind)),
        None => None,
    }
}

/// What a message asks for.
pub fn asked(message: &Message) -> Option<Asking>
    ensures { Asks message.now (asking_seen result) }
{
    match message {
        Message::MissionCount {
            count,
            target_system,
            target_component,
            mission_type,
        } => ask(
            *target_system,
            *target_component,
            *mission_type,
            asks_upload(*mission_type, *count),
        ),
        Message::MissionItemInt {
            param1,
            param2,
            param3,
            param4,
            x,
            y,
            z,
            seq,
            command,
            target_system,
            target_component,
            frame,
            current,
            autocontinue,
            mission_type,
        } => {
            let item = Item {
                param1: *param1,
                param2: *param2,
                param3: *param3,
                param4: *param4,
                x: *x,
                y: *y,
                z: *z,
                seq: *seq,
                command: *command,
                frame: *frame,
                current: *current,
                autocontinue: *autocontinue,
            };
            let request = gives_item(*mission_type, &item);
            ask(*target_system, *target_component, *mission_type, request)
        }
        Message::MissionClearAll {
            target_system,
            target_component,
            mission_type,
        } => ask(
            *target_system,
            *target_component,
            *mission_type,
            asks_clearing(*mission_type),
        ),
        Message::MissionRequestList {
            target_system,
            target_component,
            mission_type,
        } => ask(
            *target_system,
            *target_component,
            *mission_type,
            asks_count(*mission_type),
        ),
        Message::MissionRequestInt {
            seq,
            target_system,
            target_component,
            mission_type,
        }
        | Message::MissionRequest {
            seq,
            target_system,
            target_component,
            mission_type,
        } => ask(
            *target_system,
            *target_component,
            *mission_type,
            asks_item(*mission_type, *seq),
        ),
        Message::MissionAck {
            target_system,
            target_component,
            kind,
            mission_type,
        } => asks_cancelling(*target_system, *target_component, *kind, *mission_type),
        _ => None,
    }
}
