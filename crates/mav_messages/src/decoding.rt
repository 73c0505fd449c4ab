//! Payloads read: the message that stands in the bytes under an id.

ghost use Rattle.std.specs.Prelude.{◌≡◌, ℕ, ◌+◌, ◌≤◌, length, Some, None, MatchOption, IfSome, option_map};
ghost use Rattle.std.specs.Int.{cast_unsigned, w16, w32};
ghost use Rattle.mav_crc.specs.Register.{crc_of};
ghost use Rattle.mav_crc.specs.Extra.{extra_byte};
ghost use Rattle.mav_messages.specs.Fields.{layout_of, description_text};
ghost use Rattle.mav_messages.specs.Payload.{offset_number, offset_bytes, values_in, filled};
ghost use Rattle.mav_messages.specs.Descriptions.{described, heartbeat, param_request_read, param_request_list, param_value, param_set, mission_request, mission_request_list, mission_count, mission_clear_all, mission_ack, mission_request_int, mission_item_int, command_long, command_ack};
ghost use Rattle.mav_messages.specs.declared.messages.Message.{Message};
ghost use Rattle.mav_messages.specs.Messages.{field_values, description_of, FitsTypes, SaysMessage};

use crate::ids;
use crate::layouts::*;
use crate::messages::Message;
use byteorder::{ByteOrder, LittleEndian};

/// The bytes of a payload, filled with zeros: no layout is longer.
type Filled = [u8; 64];

impl Row {
    #[tactic(auto, unfolding(crate::specs::Payload::offset_number))]
    fn u8(&self, payload: &Filled) -> u8
        requires { self.now.offset + 1 ≤ 64 }
        ensures { result ≡ offset_number 1 self.now.offset payload.now }
    {
        payload[self.offset as usize]
    }

    #[tactic(auto, unfolding(crate::specs::Payload::offset_number))]
    fn u16(&self, payload: &Filled) -> u16
        requires { self.now.offset + 2 ≤ 64 }
        ensures { result ≡ offset_number 2 self.now.offset payload.now }
    {
        LittleEndian::read_u16(&payload[self.offset as usize..])
    }

    fn i16(&self, payload: &Filled) -> i16
        requires { self.now.offset + 2 ≤ 64 }
        ensures { cast_unsigned w16 result ≡ offset_number 2 self.now.offset payload.now }
    {
        self.u16(payload).cast_signed()
    }

    #[tactic(auto, unfolding(crate::specs::Payload::offset_number))]
    fn u32(&self, payload: &Filled) -> u32
        requires { self.now.offset + 4 ≤ 64 }
        ensures { result ≡ offset_number 4 self.now.offset payload.now }
    {
        LittleEndian::read_u32(&payload[self.offset as usize..])
    }

    fn i32(&self, payload: &Filled) -> i32
        requires { self.now.offset + 4 ≤ 64 }
        ensures { cast_unsigned w32 result ≡ offset_number 4 self.now.offset payload.now }
    {
        self.u32(payload).cast_signed()
    }

    #[tactic(auto, unfolding(crate::specs::Payload::offset_bytes))]
    fn bytes(&self, payload: &Filled) -> [u8; 16]
        requires { self.now.offset + 16 ≤ 64 }
        ensures { result ≡ offset_bytes 16 self.now.offset payload.now }
    {
        let mut bytes = [0u8; 16];
        let at = self.offset as usize;
        bytes.copy_from_slice(&payload[at..at + 16]);
        bytes
    }
}

fn heartbeat_of(payload: &Filled) -> Message
    ensures about { description_of result ≡ heartbeat }
    ensures fields { field_values result ≡ values_in (layout_of heartbeat) payload.now }
    ensures fits { FitsTypes result }
{
    let rows = &HEARTBEAT.rows;
    Message::Heartbeat {
        custom_mode: rows[0].u32(payload),
        kind: rows[1].u8(payload),
        autopilot: rows[2].u8(payload),
        base_mode: rows[3].u8(payload),
        system_status: rows[4].u8(payload),
        mavlink_version: rows[5].u8(payload),
    }
}

fn param_request_read_of(payload: &Filled) -> Message
    ensures about { description_of result ≡ param_request_read }
    ensures fields { field_values result ≡ values_in (layout_of param_request_read) payload.now }
    ensures fits { FitsTypes result }
{
    let rows = &PARAM_REQUEST_READ.rows;
    Message::ParamRequestRead {
        param_index: rows[0].i16(payload),
        target_system: rows[1].u8(payload),
        target_component: rows[2].u8(payload),
        param_id: rows[3].bytes(payload),
    }
}

fn param_request_list_of(payload: &Filled) -> Message
    ensures about { description_of result ≡ param_request_list }
    ensures fields { field_values result ≡ values_in (layout_of param_request_list) payload.now }
    ensures fits { FitsTypes result }
{
    let rows = &PARAM_REQUEST_LIST.rows;
    Message::ParamRequestList {
        target_system: rows[0].u8(payload),
        target_component: rows[1].u8(payload),
    }
}

fn param_value_of(payload: &Filled) -> Message
    ensures about { description_of result ≡ param_value }
    ensures fields { field_values result ≡ values_in (layout_of param_value) payload.now }
    ensures fits { FitsTypes result }
{
    let rows = &PARAM_VALUE.rows;
    Message::ParamValue {
        param_value: rows[0].u32(payload),
        param_count: rows[1].u16(payload),
        param_index: rows[2].u16(payload),
        param_id: rows[3].bytes(payload),
        param_type: rows[4].u8(payload),
    }
}

fn param_set_of(payload: &Filled) -> Message
    ensures about { description_of result ≡ param_set }
    ensures fields { field_values result ≡ values_in (layout_of param_set) payload.now }
    ensures fits { FitsTypes result }
{
    let rows = &PARAM_SET.rows;
    Message::ParamSet {
        param_value: rows[0].u32(payload),
        target_system: rows[1].u8(payload),
        target_component: rows[2].u8(payload),
        param_id: rows[3].bytes(payload),
        param_type: rows[4].u8(payload),
    }
}

fn mission_request_of(payload: &Filled) -> Message
    ensures about { description_of result ≡ mission_request }
    ensures fields { field_values result ≡ values_in (layout_of mission_request) payload.now }
    ensures fits { FitsTypes result }
{
    let rows = &MISSION_REQUEST.rows;
    Message::MissionRequest {
        seq: rows[0].u16(payload),
        target_system: rows[1].u8(payload),
        target_component: rows[2].u8(payload),
        mission_type: rows[3].u8(payload),
    }
}

fn mission_request_list_of(payload: &Filled) -> Message
    ensures about { description_of result ≡ mission_request_list }
    ensures fields { field_values result ≡ values_in (layout_of mission_request_list) payload.now }
    ensures fits { FitsTypes result }
{
    let rows = &MISSION_REQUEST_LIST.rows;
    Message::MissionRequestList {
        target_system: rows[0].u8(payload),
        target_component: rows[1].u8(payload),
        mission_type: rows[2].u8(payload),
    }
}

fn mission_count_of(payload: &Filled) -> Message
    ensures about { description_of result ≡ mission_count }
    ensures fields { field_values result ≡ values_in (layout_of mission_count) payload.now }
    ensures fits { FitsTypes result }
{
    let rows = &MISSION_COUNT.rows;
    Message::MissionCount {
        count: rows[0].u16(payload),
        target_system: rows[1].u8(payload),
        target_component: rows[2].u8(payload),
        mission_type: rows[3].u8(payload),
    }
}

fn mission_clear_all_of(payload: &Filled) -> Message
    ensures about { description_of result ≡ mission_clear_all }
    ensures fields { field_values result ≡ values_in (layout_of mission_clear_all) payload.now }
    ensures fits { FitsTypes result }
{
    let rows = &MISSION_CLEAR_ALL.rows;
    Message::MissionClearAll {
        target_system: rows[0].u8(payload),
        target_component: rows[1].u8(payload),
        mission_type: rows[2].u8(payload),
    }
}

fn mission_ack_of(payload: &Filled) -> Message
    ensures about { description_of result ≡ mission_ack }
    ensures fields { field_values result ≡ values_in (layout_of mission_ack) payload.now }
    ensures fits { FitsTypes result }
{
    let rows = &MISSION_ACK.rows;
    Message::MissionAck {
        target_system: rows[0].u8(payload),
        target_component: rows[1].u8(payload),
        kind: rows[2].u8(payload),
        mission_type: rows[3].u8(payload),
    }
}

fn mission_request_int_of(payload: &Filled) -> Message
    ensures about { description_of result ≡ mission_request_int }
    ensures fields { field_values result ≡ values_in (layout_of mission_request_int) payload.now }
    ensures fits { FitsTypes result }
{
    let rows = &MISSION_REQUEST_INT.rows;
    Message::MissionRequestInt {
        seq: rows[0].u16(payload),
        target_system: rows[1].u8(payload),
        target_component: rows[2].u8(payload),
        mission_type: rows[3].u8(payload),
    }
}

fn mission_item_int_of(payload: &Filled) -> Message
    ensures about { description_of result ≡ mission_item_int }
    ensures fields { field_values result ≡ values_in (layout_of mission_item_int) payload.now }
    ensures fits { FitsTypes result }
{
    let rows = &MISSION_ITEM_INT.rows;
    Message::MissionItemInt {
        param1: rows[0].u32(payload),
        param2: rows[1].u32(payload),
        param3: rows[2].u32(payload),
        param4: rows[3].u32(payload),
        x: rows[4].i32(payload),
        y: rows[5].i32(payload),
        z: rows[6].u32(payload),
        seq: rows[7].u16(payload),
        command: rows[8].u16(payload),
        target_system: rows[9].u8(payload),
        target_component: rows[10].u8(payload),
        frame: rows[11].u8(payload),
        current: rows[12].u8(payload),
        autocontinue: rows[13].u8(payload),
        mission_type: rows[14].u8(payload),
    }
}

fn command_long_of(payload: &Filled) -> Message
    ensures about { description_of result ≡ command_long }
    ensures fields { field_values result ≡ values_in (layout_of command_long) payload.now }
    ensures fits { FitsTypes result }
{
    let rows = &COMMAND_LONG.rows;
    Message::CommandLong {
        param1: rows[0].u32(payload),
        param2: rows[1].u32(payload),
        param3: rows[2].u32(payload),
        param4: rows[3].u32(payload),
        param5: rows[4].u32(payload),
        param6: rows[5].u32(payload),
        param7: rows[6].u32(payload),
        command: rows[7].u16(payload),
        target_system: rows[8].u8(payload),
        target_component: rows[9].u8(payload),
        confirmation: rows[10].u8(payload),
    }
}

fn command_ack_of(payload: &Filled) -> Message
    ensures about { description_of result ≡ command_ack }
    ensures fields { field_values result ≡ values_in (layout_of command_ack) payload.now }
    ensures fits { FitsTypes result }
{
    let rows = &COMMAND_ACK.rows;
    Message::CommandAck {
        command: rows[0].u16(payload),
        result: rows[1].u8(payload),
        progress: rows[2].u8(payload),
        result_param2: rows[3].i32(payload),
        target_system: rows[4].u8(payload),
        target_component: rows[5].u8(payload),
    }
}

/// The bytes of a payload, with zeros after them.
#[tactic(auto, using(crate::proofs::Zeros::fill_is), unfolding(crate::specs::Payload::filled))]
fn fill(payload: &[u8]) -> Filled
    ensures { result ≡ filled payload.now }
{
    let mut bytes = [0u8; 64];
    let len = payload.len().min(64);
    bytes[..len].copy_from_slice(&payload[..len]);
    bytes
}

fn listed_message(id: u32, payload: &[u8]) -> Option<Message>
    ensures cases { MatchOption result (described id ≡ None) (SaysMessage id payload.now) }
    ensures fits { IfSome result FitsTypes }
{
    let filled = &fill(payload);
    Some(match id {
        ids::HEARTBEAT => heartbeat_of(filled),
        ids::PARAM_REQUEST_READ => param_request_read_of(filled),
        ids::PARAM_REQUEST_LIST => param_request_list_of(filled),
        ids::PARAM_VALUE => param_value_of(filled),
        ids::PARAM_SET => param_set_of(filled),
        ids::MISSION_REQUEST => mission_request_of(filled),
        ids::MISSION_REQUEST_LIST => mission_request_list_of(filled),
        ids::MISSION_COUNT => mission_count_of(filled),
        ids::MISSION_CLEAR_ALL => mission_clear_all_of(filled),
        ids::MISSION_ACK => mission_ack_of(filled),
        ids::MISSION_REQUEST_INT => mission_request_int_of(filled),
        ids::MISSION_ITEM_INT => mission_item_int_of(filled),
        ids::COMMAND_LONG => command_long_of(filled),
        ids::COMMAND_ACK => command_ack_of(filled),
        _ => return None,
    })
}

/// The message of a payload under an id. A payload shorter than the layout is filled with zeros,
/// and a longer one's rest is ignored, in both versions. None exactly where the id isn't listed.
pub fn decode(id: u32, payload: &[u8]) -> Option<Message>
    ensures cases { MatchOption result (described id ≡ None) (SaysMessage id payload.now) }
    ensures fits { IfSome result FitsTypes }
    ensures only { (message : Message) → FitsTypes message → SaysMessage id payload.now message
        → result ≡ Some message }
{
    listed_message(id, payload)
}

fn listed_extra(id: u32) -> Option<u8>
    ensures { result ≡ option_map (λ d. d.extra) (described id) }
{
    Some(match id {
        ids::HEARTBEAT => HEARTBEAT.extra,
        ids::PARAM_REQUEST_READ => PARAM_REQUEST_READ.extra,
        ids::PARAM_REQUEST_LIST => PARAM_REQUEST_LIST.extra,
        ids::PARAM_VALUE => PARAM_VALUE.extra,
        ids::PARAM_SET => PARAM_SET.extra,
        ids::MISSION_REQUEST => MISSION_REQUEST.extra,
        ids::MISSION_REQUEST_LIST => MISSION_REQUEST_LIST.extra,
        ids::MISSION_COUNT => MISSION_COUNT.extra,
        ids::MISSION_CLEAR_ALL => MISSION_CLEAR_ALL.extra,
        ids::MISSION_ACK => MISSION_ACK.extra,
        ids::MISSION_REQUEST_INT => MISSION_REQUEST_INT.extra,
        ids::MISSION_ITEM_INT => MISSION_ITEM_INT.extra,
        ids::COMMAND_LONG => COMMAND_LONG.extra,
        ids::COMMAND_ACK => COMMAND_ACK.extra,
        _ => return None,
    })
}

/// CRC_EXTRA, the byte by which a message's description counts in the CRC of its frames. None
/// exactly where the id isn't listed.
pub fn extra(id: u32) -> Option<u8>
    ensures listed { result ≡ option_map (λ d. d.extra) (described id) }
    ensures computed { result
        ≡ option_map (λ d. extra_byte (crc_of 0xFFFF (description_text d))) (described id) }
{
    listed_extra(id)
}
