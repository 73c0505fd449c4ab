//! What a station is told, and the message that tells it.
ghost use Rattle.std.specs.Prelude.{◌≡◌};
ghost use Rattle.mission_service.specs.Replies.{IsReplyOf, TellsContent, item_message};

use crate::uploads::Target;
use fence_records::FenceItem;
use mav_messages::{Message, Reply, To};
use mission_commands::{Command, Item};

/// MAV_MISSION_RESULT of MAVLink's common message set: the numbers of the answers that the protocol
/// gives by itself.
pub const ACCEPTED: u8 = 0;

/// No upload is open.
pub const ERROR: u8 = 1;

/// The MAV_MISSION_TYPE isn't supported.
pub const UNSUPPORTED: u8 = 3;

/// There are too many items, or the lines may not be issued.
pub const NO_SPACE: u8 = 4;

/// The item isn't the one that is asked for, or there is none with this number.
pub const INVALID_SEQUENCE: u8 = 13;

/// Another station's upload is open.
pub const DENIED: u8 = 14;

/// The upload is given up.
pub const OPERATION_CANCELLED: u8 = 15;

/// What a station is told: MISSION_ACK with a result, MISSION_REQUEST_INT of an item,
/// MISSION_COUNT, or MISSION_ITEM_INT.
#[derive(Clone, Copy, Drop)]
pub enum Content {
    Answer(u8),
    Next(u16),
    Total(u16),
    MissionItem(u16, Command),
    FencePart(u16, FenceItem),
}

/// MISSION_ITEM_INT of an item.
fn item_message(item: &Item, target: Target, number: u8) -> Message
    ensures { result ≡ item_message item.now target number }
{
    Message::MissionItemInt {
        param1: item.param1,
        param2: item.param2,
        param3: item.param3,
        param4: item.param4,
        x: item.x,
        y: item.y,
        z: item.z,
        seq: item.seq,
        command: item.command,
        target_system: target.system,
        target_component: target.component,
        frame: item.frame,
        current: item.current,
        autocontinue: item.autocontinue,
        mission_type: number,
    }
}

/// The message that tells a content to a target, of the type with this number.
fn message(content: &Content, target: Target, number: u8) -> Message
    ensures { TellsContent content.now target number result }
{
    match content {
        Content::Answer(result) => Message::MissionAck {
            target_system: target.system,
            target_component: target.component,
            kind: *result,
            mission_type: number,
        },
        Content::Next(seq) => Message::MissionRequestInt {
            seq: *seq,
            target_system: target.system,
            target_component: target.component,
            mission_type: number,
        },
        Content::Total(count) => Message::MissionCount {
            count: *count,
            target_system: target.system,
            target_component: target.component,
            mission_type: number,
        },
        Content::MissionItem(seq, command) => {
            item_message(&mission_commands::to_item(command, *seq), target, number)
        }
        Content::FencePart(seq, item) => {
            item_message(&fence_records::to_item(item, *seq), target, number)
        }
    }
}

/// The reply that tells a station a content.
pub fn reply(station: u8, target: Target, number: u8, content: &Content) -> Reply
    ensures { IsReplyOf station
        (record { target = target; number = number; content = content.now }) result }
{
    Reply {
        to: To::Station(station),
        message: message(content, target, number),
    }
}
