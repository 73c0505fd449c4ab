//! Payloads written: the fields of a message in wire order, the lowest byte of a number first.

ghost use Rattle.std.specs.Prelude.{◌≡◌, ℕ, ◌+◌, ◌≤◌, ◌<◌, ◌++◌, [], length};
ghost use Rattle.std.specs.Int.{cast_unsigned, w16, w32};
ghost use Rattle.mav_messages.specs.Fields.{layout_of};
ghost use Rattle.mav_messages.specs.Payload.{Suit, IsTrimmed, IsPayload};
ghost use Rattle.mav_messages.specs.Messages.{field_values, description_of, FitsTypes, SaysMessage, ArrivesAs};
ghost use Rattle.mav_messages.specs.Steps.Writes.{PutsNumber, PutsExtension, PutsChars, IsSpelled};
ghost use Rattle.mav_messages.specs.declared.messages.Message.{Message};

use crate::messages::Message;
use arrayvec::ArrayVec;
use byteorder::{ByteOrder, LittleEndian};

type Payload = ArrayVec<u8, 64>;

/// Puts bytes after those that a list has.
pub fn append<const N: usize>(list: &mut ArrayVec<u8, N>, bytes: &[u8])
    requires { length list.old.items + length bytes.now ≤ N }
    ensures { list.new.items ≡ list.old.items ++ bytes.now }
{
    match list.try_extend_from_slice(bytes) {
        Ok(()) => {}
        Err(_) => unreachable!(),
    }
}

fn put_u8(payload: &mut Payload, number: u8)
    requires { length payload.old.items + 1 ≤ 64 }
    ensures puts { PutsNumber 1 number payload.old.items payload.new.items }
    ensures long { length payload.new.items ≤ length payload.old.items + 1 }
{
    payload.push(number);
}

fn put_u16(payload: &mut Payload, number: u16)
    requires { length payload.old.items + 2 ≤ 64 }
    ensures puts { PutsNumber 2 number payload.old.items payload.new.items }
    ensures long { length payload.new.items ≤ length payload.old.items + 2 }
{
    let mut bytes = [0u8; 2];
    LittleEndian::write_u16(&mut bytes, number);
    append(payload, &bytes);
}

fn put_i16(payload: &mut Payload, number: i16)
    requires { length payload.old.items + 2 ≤ 64 }
    ensures puts { PutsNumber 2 (cast_unsigned w16 number) payload.old.items payload.new.items }
    ensures long { length payload.new.items ≤ length payload.old.items + 2 }
{
    put_u16(payload, number.cast_unsigned());
}

fn put_u32(payload: &mut Payload, number: u32)
    requires { length payload.old.items + 4 ≤ 64 }
    ensures puts { PutsNumber 4 number payload.old.items payload.new.items }
    ensures long { length payload.new.items ≤ length payload.old.items + 4 }
{
    let mut bytes = [0u8; 4];
    LittleEndian::write_u32(&mut bytes, number);
    append(payload, &bytes);
}

fn put_i32(payload: &mut Payload, number: i32)
    requires { length payload.old.items + 4 ≤ 64 }
    ensures puts { PutsNumber 4 (cast_unsigned w32 number) payload.old.items payload.new.items }
    ensures long { length payload.new.items ≤ length payload.old.items + 4 }
{
    put_u32(payload, number.cast_unsigned());
}

fn put_chars(payload: &mut Payload, chars: &[u8; 16])
    requires { length payload.old.items + 16 ≤ 64 }
    ensures puts { PutsChars 16 chars.now payload.old.items payload.new.items }
    ensures long { length payload.new.items ≤ length payload.old.items + 16 }
{
    append(payload, chars);
}

/// A field that version 1 doesn't send.
fn put_extension_u8(payload: &mut Payload, v2: bool, number: u8)
    requires { length payload.old.items + 1 ≤ 64 }
    ensures puts { PutsExtension v2 1 number payload.old.items payload.new.items }
    ensures long { length payload.new.items ≤ length payload.old.items + 1 }
{
    if v2 {
        put_u8(payload, number);
    }
}

/// A signed field that version 1 doesn't send.
fn put_extension_i32(payload: &mut Payload, v2: bool, number: i32)
    requires { length payload.old.items + 4 ≤ 64 }
    ensures puts { PutsExtension v2 4 (cast_unsigned w32 number)
        payload.old.items payload.new.items }
    ensures long { length payload.new.items ≤ length payload.old.items + 4 }
{
    if v2 {
        put_i32(payload, number);
    }
}

/// Puts a field by its form.
macro_rules! put_field {
    (u8 $payload:ident $v2:ident $field:ident) => {
        put_u8($payload, *$field)
    };
    (u16 $payload:ident $v2:ident $field:ident) => {
        put_u16($payload, *$field)
    };
    (i16 $payload:ident $v2:ident $field:ident) => {
        put_i16($payload, *$field)
    };
    (u32 $payload:ident $v2:ident $field:ident) => {
        put_u32($payload, *$field)
    };
    (i32 $payload:ident $v2:ident $field:ident) => {
        put_i32($payload, *$field)
    };
    (chars $payload:ident $v2:ident $field:ident) => {
        put_chars($payload, $field)
    };
    (extension_u8 $payload:ident $v2:ident $field:ident) => {
        put_extension_u8($payload, $v2, *$field)
    };
    (extension_i32 $payload:ident $v2:ident $field:ident) => {
        put_extension_i32($payload, $v2, *$field)
    };
}

/// Puts the fields of a message, from a table that has for each variant its fields in wire order,
/// each with its form.
macro_rules! put_message {
    ($payload:ident, $message:ident, $v2:ident, {
        $($variant:ident { $($field:ident: $form:ident,)* })*
    }) => {
        match $message {
            $(Message::$variant { $($field),* } => {
                $(put_field!($form $payload $v2 $field);)*
            })*
        }
    };
}

/// The fields of a message, in an empty payload.
fn put_fields(payload: &mut Payload, message: &Message, v2: bool)
    requires { length payload.old.items ≡ 0 }
    ensures { IsSpelled v2 message.now payload.new.items }
{
    put_message!(payload, message, v2, {
        Heartbeat {
            custom_mode: u32, kind: u8, autopilot: u8, base_mode: u8, system_status: u8,
            mavlink_version: u8,
        }
        ParamRequestRead {
            param_index: i16, target_system: u8, target_component: u8, param_id: chars,
        }
        ParamRequestList {
            target_system: u8, target_component: u8,
        }
        ParamValue {
            param_value: u32, param_count: u16, param_index: u16, param_id: chars, param_type: u8,
        }
        ParamSet {
            param_value: u32, target_system: u8, target_component: u8, param_id: chars,
            param_type: u8,
        }
        MissionRequest {
            seq: u16, target_system: u8, target_component: u8, mission_type: extension_u8,
        }
        MissionRequestList {
            target_system: u8, target_component: u8, mission_type: extension_u8,
        }
        MissionCount {
            count: u16, target_system: u8, target_component: u8, mission_type: extension_u8,
        }
        MissionClearAll {
            target_system: u8, target_component: u8, mission_type: extension_u8,
        }
        MissionAck {
            target_system: u8, target_component: u8, kind: u8, mission_type: extension_u8,
        }
        MissionRequestInt {
            seq: u16, target_system: u8, target_component: u8, mission_type: extension_u8,
        }
        MissionItemInt {
            param1: u32, param2: u32, param3: u32, param4: u32, x: i32, y: i32, z: u32, seq: u16,
            command: u16, target_system: u8, target_component: u8, frame: u8, current: u8,
            autocontinue: u8, mission_type: extension_u8,
        }
        CommandLong {
            param1: u32, param2: u32, param3: u32, param4: u32, param5: u32, param6: u32,
            param7: u32, command: u16, target_system: u8, target_component: u8, confirmation: u8,
        }
        CommandAck {
            command: u16, result: u8, progress: extension_u8, result_param2: extension_i32,
            target_system: extension_u8, target_component: extension_u8,
        }
    })
}

/// Takes the zeros from the end of a payload, but leaves a byte.
fn trim(payload: &mut Payload)
    requires { 0 < length payload.old.items }
    ensures { IsTrimmed payload.old.items payload.new.items }
{
    let mut len = payload.len();
    while len > 1 && payload[len - 1] == 0 {
        len -= 1;
    }
    payload.truncate(len);
}

/// The signed fields of a message fit their types.
fn fields_fit(message: &Message)
    ensures { FitsTypes message.now }
{
    match message {
        Message::ParamRequestRead { param_index, .. } => {
            let _index = *param_index;
        }
        Message::MissionItemInt { x, y, .. } => {
            let _x = *x;
            let _y = *y;
        }
        Message::CommandAck { result_param2, .. } => {
            let _param = *result_param2;
        }
        Message::Heartbeat { .. }
        | Message::ParamRequestList { .. }
        | Message::ParamValue { .. }
        | Message::ParamSet { .. }
        | Message::MissionRequest { .. }
        | Message::MissionRequestList { .. }
        | Message::MissionCount { .. }
        | Message::MissionClearAll { .. }
        | Message::MissionAck { .. }
        | Message::MissionRequestInt { .. }
        | Message::CommandLong { .. } => {}
    }
}

/// The payload of a message, in an empty one.
fn put_payload(payload: &mut Payload, message: &Message, v2: bool)
    requires { length payload.old.items ≡ 0 }
    ensures payload { IsPayload v2 (layout_of (description_of message.now))
        (field_values message.now) payload.new.items }
    ensures suit { Suit (layout_of (description_of message.now)) (field_values message.now) }
{
    put_fields(payload, message, v2);
    if v2 {
        trim(payload);
    }
}

/// The payload of a message as it is sent, in place of what the buffer held: in version 1 its whole
/// base length without extensions, in version 2 without its trailing zeros but with at least one
/// byte.
pub fn encode_into(payload: &mut ArrayVec<u8, 64>, message: &Message, v2: bool)
    ensures payload { IsPayload v2 (layout_of (description_of message.now))
        (field_values message.now) payload.new.items }
    ensures said { (arrived : Message) × ArrivesAs v2 message.now arrived
        × SaysMessage (description_of message.now).id payload.new.items arrived }
    ensures some { 0 < length payload.new.items }
    ensures short { length payload.new.items ≤ 64 }
    ensures fits { FitsTypes message.now }
{
    fields_fit(message);
    payload.clear();
    put_payload(payload, message, v2);
}

/// The payload of a message as it is sent, as `encode_into` writes it.
pub fn encode(message: &Message, v2: bool) -> ArrayVec<u8, 64>
    ensures payload { IsPayload v2 (layout_of (description_of message.now))
        (field_values message.now) result.items }
    ensures said { (arrived : Message) × ArrivesAs v2 message.now arrived
        × SaysMessage (description_of message.now).id result.items arrived }
    ensures some { 0 < length result.items }
    ensures short { length result.items ≤ 64 }
    ensures fits { FitsTypes message.now }
{
    let mut payload = ArrayVec::new();
    encode_into(&mut payload, message, v2);
    payload
}
