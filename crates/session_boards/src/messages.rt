//! What the station sends in a round of the generated session.
ghost use Rattle.std.specs.Prelude.{◌≡◌, ◌<◌, ◌≤◌, ◌^◌, length, pos, slice_get, Some, MatchOption};
ghost use Rattle.session_boards.specs.Session.{Sending, Sends, Waits, IsBitsOf, SaysSending, messages_of, upload, flush_of, set_of, waits_after};

use mav_messages::Message;
use param_tree::{mav_type_of, vehicle_table};
use word_bits::bits_of;

/// The system of the session's station: a ground station.
pub const STATION_SYSTEM: u8 = 255;

/// The component of the session's station: MAV_COMP_ID_MISSIONPLANNER of MAVLink.
pub const STATION_COMPONENT: u8 = 190;

/// How many messages an upload has.
const UPLOAD_MESSAGES: u8 = 6;

/// How many messages a round has.
pub fn messages_in(round: u16) -> u8
    ensures { result ≡ length (messages_of round) }
{
    match (round % 10 == 0, round % 16 == 15) {
        (true, true) => 8,
        (true, false) => 7,
        (false, true) => 2,
        (false, false) => 1,
    }
}

/// The pattern of a number.
fn pattern_of(number: u8) -> u32
    ensures { IsBitsOf number result }
{
    bits_of(i32::from(number))
}

/// The PARAM_SET of a round.
fn set_message(round: u16) -> Message
    ensures { SaysSending (set_of round) result }
{
    let row = vehicle_table().row(64 + round % 176);
    let param_id = row.name;
    Message::ParamSet {
        param_value: pattern_of((round % 100) as u8),
        target_system: 1,
        target_component: 1,
        param_id,
        param_type: mav_type_of(row.kind),
    }
}

/// A number as a field with a sign has it.
fn signed(number: u32) -> i32
    requires { number < 2 ^ 31 }
    ensures { result ≡ pos number }
{
    number as i32
}

/// A message of the upload of a round: the MISSION_COUNT, and then the items.
fn upload_message(round: u16, step: u8) -> Message
    requires { step < 6 }
    ensures { (sending : Sending) × (slice_get (upload round) step ≡ Some sending)
        × SaysSending sending result }
{
    if step == 0 {
        return Message::MissionCount {
            count: 5,
            target_system: 1,
            target_component: 1,
            mission_type: 0,
        };
    }
    let seq = step - 1;
    Message::MissionItemInt {
        param1: 0,
        param2: 0,
        param3: 0,
        param4: 0,
        x: signed(473_977_420 + u32::from(round)),
        y: signed(85_455_970 + u32::from(seq)),
        z: pattern_of(10 + seq),
        seq: u16::from(seq),
        command: 16,
        target_system: 1,
        target_component: 1,
        frame: 3,
        current: 0,
        autocontinue: 1,
        mission_type: 0,
    }
}

/// The COMMAND_LONG with which a round asks for a flush, where it does, and None after it.
fn flush_at(round: u16, step: u8) -> Option<Message>
    requires { step ≤ length (flush_of round) }
    ensures { MatchOption result (slice_get (waits_after (flush_of round)) step ≡ Some Waits)
        (λ message. (sending : Sending)
        × (slice_get (waits_after (flush_of round)) step ≡ Some (Sends sending))
        × SaysSending sending message) }
{
    if step > 0 || round % 16 != 15 {
        return None;
    }
    Some(Message::CommandLong {
        param1: 0x3F80_0000,
        param2: 0,
        param3: 0,
        param4: 0,
        param5: 0,
        param6: 0,
        param7: 0,
        command: 245,
        target_system: 1,
        target_component: 1,
        confirmation: 0,
    })
}

/// The message of a step of a round, and None in the last step, in which nothing comes.
pub fn message_at(round: u16, step: u8) -> Option<Message>
    requires { step ≤ length (messages_of round) }
    ensures { MatchOption result (slice_get (waits_after (messages_of round)) step ≡ Some Waits)
        (λ message. (sending : Sending)
        × (slice_get (waits_after (messages_of round)) step ≡ Some (Sends sending))
        × SaysSending sending message) }
{
    if step == 0 {
        return Some(set_message(round));
    }
    let later = step - 1;
    if round % 10 != 0 {
        return flush_at(round, later);
    }
    if later < UPLOAD_MESSAGES {
        return Some(upload_message(round, later));
    }
    flush_at(round, later - UPLOAD_MESSAGES)
}
