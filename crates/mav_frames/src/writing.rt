//! Frames written: a head, the payload of a message, and their CRC.

ghost use Rattle.std.specs.Prelude.{◌≡◌, ℕ, ◌+◌, ◌<◌, ◌≤◌, ◌++◌, Bool, true, false, ◌^◌, List, [], ◌∷◌, length, drop, Some};
ghost use Rattle.byteorder.specs.Endian.{little_bytes};
ghost use Rattle.mav_crc.specs.Register.{crc_of};
ghost use Rattle.mav_messages.specs.Messages.{FitsTypes, ArrivesAs};
ghost use Rattle.mav_messages.specs.declared.messages.Message.{Message};
ghost use Rattle.mav_frames.specs.Cut.{IsFrame, Cut, Whole};
ghost use Rattle.mav_frames.specs.Frames.{IsMessageOf, IsSent, head_bytes, framed};

use crate::frames::{FrameBytes, V1, V2};
use arrayvec::ArrayVec;
use byteorder::{ByteOrder, LittleEndian};
use mav_crc::crc;
use mav_messages::{Message, append, encode_into, extra};

/// Puts what stands before a payload. An id of version 1 has one byte.
fn put_head(
    frame: &mut FrameBytes,
    v2: bool,
    count: u8,
    seq: u8,
    system: u8,
    component: u8,
    id: u32,
)
    requires room { length frame.old.items + 10 ≤ 80 }
    requires id { id < 2 ^ 24 }
    requires version_one { v2 ≡ false → id < 256 }
    ensures { frame.new.items ≡ frame.old.items ++ head_bytes v2 count seq system component id }
{
    if v2 {
        let mut number = [0u8; 3];
        LittleEndian::write_u24(&mut number, id);
        append(frame, &[V2, count, 0, 0, seq, system, component]);
        append(frame, &number);
    } else {
        append(frame, &[V1, count, seq, system, component, id as u8]);
    }
}

/// Puts the CRC after the head and payload of a frame.
fn put_crc(frame: &mut FrameBytes, extra: u8)
    requires some { 1 ≤ length frame.old.items }
    requires room { length frame.old.items ≤ 78 }
    ensures after { frame.new.items ≡ framed frame.old.items extra }
    ensures small { crc_of (crc_of 0xFFFF (drop 1 frame.old.items)) (extra ∷ []) < 2 ^ 16 }
{
    let value = crc(crc(0xFFFF, &frame.as_slice()[1..]), &[extra]);
    let mut bytes = [0u8; 2];
    LittleEndian::write_u16(&mut bytes, value);
    append(frame, &bytes);
}

/// The frame of a message, in place of what the buffer held. What is cut from it is read as the
/// message, its extensions being 0 where it went as version 1.
pub fn write_frame_into(
    frame: &mut FrameBytes,
    message: &Message,
    v2: bool,
    system: u8,
    component: u8,
    seq: u8,
)
    ensures sent { IsSent v2 seq system component message.now frame.new.items }
    ensures frame { IsFrame frame.new.items }
    ensures cut { Cut frame.new.items (Whole frame.new.items ∷ []) [] }
    ensures reads { (arrived : Message) × ArrivesAs v2 message.now arrived
        × IsMessageOf frame.new.items arrived }
    ensures fits { FitsTypes message.now }
{
    let mut payload = ArrayVec::new();
    encode_into(&mut payload, message, v2);
    let id = message.id();
    match extra(id) {
        Some(extra) => {
            frame.clear();
            put_head(frame, v2, payload.len() as u8, seq, system, component, id);
            append(frame, payload.as_slice());
            put_crc(frame, extra);
        }
        None => unreachable!(),
    }
}

/// The frame of a message, as `write_frame_into` writes it.
pub fn write_frame(
    message: &Message,
    v2: bool,
    system: u8,
    component: u8,
    seq: u8,
) -> ArrayVec<u8, 280>
    ensures sent { IsSent v2 seq system component message.now result.items }
    ensures frame { IsFrame result.items }
    ensures cut { Cut result.items (Whole result.items ∷ []) [] }
    ensures reads { (arrived : Message) × ArrivesAs v2 message.now arrived
        × IsMessageOf result.items arrived }
    ensures fits { FitsTypes message.now }
{
    let mut frame = FrameBytes::new();
    write_frame_into(&mut frame, message, v2, system, component, seq);
    let mut bytes = ArrayVec::new();
    append(&mut bytes, frame.as_slice());
    bytes
}
