//! The messages, and who is answered.

ghost use Rattle.std.specs.Prelude.{◌≡◌, ◌<◌, ◌^◌, Some};
ghost use Rattle.mav_messages.specs.Descriptions.{described};
ghost use Rattle.mav_messages.specs.Messages.{description_of};

use crate::layouts::*;
use arrayvec::ArrayVec;

/// A message of the MAVLink common message set, its fields in the order of its payload. A float is
/// its bit pattern, a char a byte, and `kind` the field that MAVLink calls type.
#[derive(Clone, Copy, Debug, Drop)]
pub enum Message {
    Heartbeat {
        custom_mode: u32,
        kind: u8,
        autopilot: u8,
        base_mode: u8,
        system_status: u8,
        mavlink_version: u8,
    },
    ParamRequestRead {
        param_index: i16,
        target_system: u8,
        target_component: u8,
        param_id: [u8; 16],
    },
    ParamRequestList {
        target_system: u8,
        target_component: u8,
    },
    ParamValue {
        param_value: u32,
        param_count: u16,
        param_index: u16,
        param_id: [u8; 16],
        param_type: u8,
    },
    ParamSet {
        param_value: u32,
        target_system: u8,
        target_component: u8,
        param_id: [u8; 16],
        param_type: u8,
    },
    MissionRequest {
        seq: u16,
        target_system: u8,
        target_component: u8,
        mission_type: u8,
    },
    MissionRequestList {
        target_system: u8,
        target_component: u8,
        mission_type: u8,
    },
    MissionCount {
        count: u16,
        target_system: u8,
        target_component: u8,
        mission_type: u8,
    },
    MissionClearAll {
        target_system: u8,
        target_component: u8,
        mission_type: u8,
    },
    MissionAck {
        target_system: u8,
        target_component: u8,
        kind: u8,
        mission_type: u8,
    },
    MissionRequestInt {
        seq: u16,
        target_system: u8,
        target_component: u8,
        mission_type: u8,
    },
    MissionItemInt {
        param1: u32,
        param2: u32,
        param3: u32,
        param4: u32,
        x: i32,
        y: i32,
        z: u32,
        seq: u16,
        command: u16,
        target_system: u8,
        target_component: u8,
        frame: u8,
        current: u8,
        autocontinue: u8,
        mission_type: u8,
    },
    CommandLong {
        param1: u32,
        param2: u32,
        param3: u32,
        param4: u32,
        param5: u32,
        param6: u32,
        param7: u32,
        command: u16,
        target_system: u8,
        target_component: u8,
        confirmation: u8,
    },
    CommandAck {
        command: u16,
        result: u8,
        progress: u8,
        result_param2: i32,
        target_system: u8,
        target_component: u8,
    },
}

impl Message {
    /// The id under which the message is listed.
    pub fn id(&self) -> u32
        ensures listed { described result ≡ Some (description_of self.now) }
        ensures id { result ≡ (description_of self.now).id }
        ensures short { result < 256 }
    {
        match self {
            Message::Heartbeat { .. } => HEARTBEAT.id,
            Message::ParamRequestRead { .. } => PARAM_REQUEST_READ.id,
            Message::ParamRequestList { .. } => PARAM_REQUEST_LIST.id,
            Message::ParamValue { .. } => PARAM_VALUE.id,
            Message::ParamSet { .. } => PARAM_SET.id,
            Message::MissionRequest { .. } => MISSION_REQUEST.id,
            Message::MissionRequestList { .. } => MISSION_REQUEST_LIST.id,
            Message::MissionCount { .. } => MISSION_COUNT.id,
            Message::MissionClearAll { .. } => MISSION_CLEAR_ALL.id,
            Message::MissionAck { .. } => MISSION_ACK.id,
            Message::MissionRequestInt { .. } => MISSION_REQUEST_INT.id,
            Message::MissionItemInt { .. } => MISSION_ITEM_INT.id,
            Message::CommandLong { .. } => COMMAND_LONG.id,
            Message::CommandAck { .. } => COMMAND_ACK.id,
        }
    }
}

/// What an unused place of a list of replies holds.
impl Default for Message {
    fn default() -> Self {
        Message::ParamRequestList {
            target_system: 0,
            target_component: 0,
        }
    }
}

/// Who sent a message: the station that it came from, 0 to 7, and the system and component that its
/// frame names.
#[derive(Clone, Copy, Debug, Drop)]
pub struct Sender {
    pub station: u8,
    pub system: u8,
    pub component: u8,
}

/// Whom a reply goes to: a station, or all that were heard.
#[derive(Clone, Copy, Debug, Default, Drop)]
pub enum To {
    Station(u8),
    #[default]
    All,
}

/// A message, and whom it goes to.
#[derive(Clone, Copy, Debug, Default, Drop)]
pub struct Reply {
    pub to: To,
    pub message: Message,
}

/// The replies to an event, in the order in which they are sent.
pub type Replies = ArrayVec<Reply, 8>;
