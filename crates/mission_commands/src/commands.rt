//! From the item of a message to the command that is stored, and back.

ghost use Rattle.std.specs.Prelude.{◌≡◌, ◌+◌, ◌≤◌, ◌++◌, ◌≤ℤ◌, ℤ, List, ℕ, MatchOption, MatchResult, MatchBool, IsTrue, length, ◌<◌, ◌^◌, ◌↔◌, negsuc, pos};
ghost use Rattle.std.specs.Bool.{OnTrue};
ghost use Rattle.arrayvec.specs.ArrayVec.{array_vec_len};
ghost use Rattle.word_bits.specs.Pattern.{IsWhole, IsCentimetres, signed};
ghost use Rattle.mission_commands.specs.Rows.{IsUse, IsRow, stored_width};
ghost use Rattle.mission_commands.specs.Table.{row_of};
ghost use Rattle.mission_commands.specs.Commands.{Allows, IsWithin, StoredAs, IsBelowZero, filled_to, frame_flags, is_frame, is_location_frame, has_location, location_of, sign_flag, Meets, IsTested, IsPacked, IsLocation, IsStored, IsItemOf, IsPlaceOf, IsParam, part_at, parameter_bytes, frame_with, whole_in, param_rules, location_rules, item_rules};

use crate::table::{Row, Shape, Use, row_of};
use arrayvec::ArrayVec;
use storage_lines::numbers::{number_of, push_number, signed_of, unsigned};
use word_bits::{bits_of, bits_of_centimetres, centimetres_of, is_finite, whole_of};

/// A command as it is stored: its number, the two bytes before the content, and the content.
#[derive(Clone, Copy, Drop)]
pub struct Command {
    pub id: u16,
    pub p1: u16,
    pub content: [u8; 12],
}

/// An item of a mission or a fence, as MISSION_ITEM_INT of MAVLink's common message set has it:
/// the four parameters and `z` are binary32 patterns, `x` and `y` are latitude and longitude in
/// 1e-7 degree.
#[derive(Clone, Copy, Drop)]
pub struct Item {
    pub param1: u32,
    pub param2: u32,
    pub param3: u32,
    pub param4: u32,
    pub x: i32,
    pub y: i32,
    pub z: u32,
    pub seq: u16,
    pub command: u16,
    pub frame: u8,
    pub current: u8,
    pub autocontinue: u8,
}

/// The whole number of the pattern, if it is in the range.
fn whole_within(bits: u32, low: i32, high: i32) -> Option<i32>
    ensures { MatchOption result
        (¬ IsWithin low high bits)
        (λ n. IsWhole bits n × (low ≤ℤ n) × (n ≤ℤ high)) }
{
    match whole_of(bits) {
        Some(number) => {
            if low <= number && number <= high {
                Some(number)
            } else {
                None
            }
        }
        None => None,
    }
}

/// Tests a parameter, and appends what is stored of it.
fn store(param: Use, bits: u32, packed: &mut ArrayVec<u8, 12>) -> bool
    requires usual { IsUse param }
    requires room { array_vec_len packed.old + stored_width param ≤ 12 }
    ensures allowed { MatchBool result (Allows param bits) (¬ Allows param bits) }
    ensures stored { OnTrue result ((part : List ℕ) × (StoredAs param bits part)
        × (packed.new.items ≡ packed.old.items ++ part)) }
    ensures len { OnTrue result
        (array_vec_len packed.new ≡ array_vec_len packed.old + stored_width param) }
{
    match param {
        Use::Unused => true,
        Use::Whole(low, high, width) => match whole_within(bits, low, high) {
            Some(number) => {
                push_number(packed, width, unsigned(width, number));
                true
            }
            None => false,
        },
        Use::Signed(high, width) => match whole_within(bits, -high, high) {
            Some(number) => {
                push_number(packed, width, number.unsigned_abs());
                true
            }
            None => false,
        },
        Use::Pattern => {
            if !is_finite(bits) {
                return false;
            }
            push_number(packed, 4, bits);
            true
        }
    }
}

/// Whether the parameter is stored by its magnitude, and below zero.
fn is_below_zero(param: Use, bits: u32) -> bool
    requires { Allows param bits }
    ensures { IsTrue result ↔ IsBelowZero param bits }
{
    match param {
        Use::Signed(high, _) => match whole_within(bits, -high, high) {
            Some(number) => number < 0,
            None => false,
        },
        _ => false,
    }
}

/// Whether it is one of the frames of a location.
fn is_location_frame(frame: u8) -> bool
    ensures { result ≡ is_location_frame frame }
{
    matches!(frame, 0 | 3 | 5 | 6 | 10 | 11)
}

/// The flags of a location with this frame.
fn frame_flags(frame: u8) -> u8
    ensures value { result ≡ frame_flags frame }
    ensures bound { result ≤ 3 }
{
    match frame {
        0 | 5 => 0,
        3 | 6 => 1,
        _ => 3,
    }
}

/// The flag of a negative number whose magnitude is stored.
fn sign_flag(negative: bool) -> u8
    ensures value { result ≡ sign_flag negative }
    ensures bound { result ≤ 4 }
{
    if negative { 4 } else { 0 }
}

/// The bytes, filled with zeros.
fn filled(bytes: &[u8]) -> [u8; 12]
    requires { length bytes.now ≤ 12 }
    ensures { result ≡ filled_to 12 bytes.now }
{
    let mut content = [0; 12];
    content[..bytes.len()].copy_from_slice(bytes);
    content
}

/// The bytes of a location.
fn location_of(flags: u8, altitude: i32, x: i32, y: i32) -> [u8; 12]
    requires { IsCentimetres altitude }
    ensures { result ≡ location_of flags altitude x y }
{
    let mut bytes = ArrayVec::<u8, 12>::new();
    bytes.push(flags);
    push_number(&mut bytes, 3, unsigned(3, altitude));
    push_number(&mut bytes, 4, unsigned(4, x));
    push_number(&mut bytes, 4, unsigned(4, y));
    filled(&bytes)
}

/// Whether the frame goes with a command of this shape.
fn is_frame(shape: Shape, frame: u8) -> bool
    ensures { result ≡ is_frame shape frame }
{
    match shape {
        Shape::Located => is_location_frame(frame),
        Shape::Plain => is_location_frame(frame) || frame == 2,
        Shape::Unlisted => false,
    }
}

/// Tests the parameters of the item, and gives what is stored of them.
fn pack(row: &Row, item: &Item) -> Result<[u8; 12], u8>
    requires { IsRow row.now }
    ensures { IsTested (Meets item.now row.now) param_rules
        (λ bytes. IsPacked row.now item.now bytes) result }
{
    let mut packed = ArrayVec::<u8, 12>::new();
    if !store(row.param1, item.param1, &mut packed) {
        return Err(6);
    }
    if !store(row.param2, item.param2, &mut packed) {
        return Err(7);
    }
    if !store(row.param3, item.param3, &mut packed) {
        return Err(8);
    }
    if !store(row.param4, item.param4, &mut packed) {
        return Err(9);
    }
    Ok(filled(&packed))
}

/// Tests the place of the item, and gives what is stored of it.
fn location(row: &Row, item: &Item) -> Result<[u8; 12], u8>
    requires located { IsTrue (has_location row.now.shape) }
    requires allowed { Allows row.now.param3 item.now.param3 }
    ensures { IsTested (Meets item.now row.now) location_rules
        (λ content. IsLocation row.now item.now content) result }
{
    if item.x < -900_000_000 || item.x > 900_000_000 {
        return Err(10);
    }
    if item.y < -1_800_000_000 || item.y > 1_800_000_000 {
        return Err(11);
    }
    let Some(altitude) = centimetres_of(item.z) else {
        return Err(12);
    };
    let negative = is_below_zero(row.param3, item.param3);
    Ok(location_of(
        frame_flags(item.frame) + sign_flag(negative),
        altitude,
        item.x,
        item.y,
    ))
}

/// What is stored of the item, or the answer (MAV_MISSION_RESULT) of the first rule that it
/// breaks: 3 the command isn't listed, 2 its frame isn't one of the command's, 6 to 9 one of its
/// parameters, 10 latitude, 11 longitude, 12 an altitude that isn't the nearest pattern of a whole
/// centimetre.
pub fn to_command(item: &Item) -> Result<Command, u8>
    ensures { IsTested (Meets item.now (row_of item.now.command)) item_rules
        (λ c. IsStored item.now c) result }
{
    let row = row_of(item.command);
    if let Shape::Unlisted = row.shape {
        return Err(3);
    }
    if !is_frame(row.shape, item.frame) {
        return Err(2);
    }
    let bytes = match pack(&row, item) {
        Ok(bytes) => bytes,
        Err(answer) => return Err(answer),
    };
    if let Shape::Plain = row.shape {
        return Ok(Command {
            id: item.command,
            p1: 0,
            content: bytes,
        });
    }
    match location(&row, item) {
        Ok(content) => {
            let p1 = bytes[0] as u16 + 256 * bytes[1] as u16;
            Ok(Command {
                id: item.command,
                p1,
                content,
            })
        }
        Err(answer) => Err(answer),
    }
}

/// Where an item is.
#[derive(Clone, Copy, Drop)]
struct Place {
    frame: u8,
    x: i32,
    y: i32,
    z: u32,
}

/// How many bytes of the parameter are stored.
fn stored_width(param: Use) -> usize
    requires { IsUse param }
    ensures value { result ≡ stored_width param }
    ensures bound { result ≤ 4 }
{
    match param {
        Use::Unused => 0,
        Use::Whole(_, _, width) => width,
        Use::Signed(_, width) => width,
        Use::Pattern => 4,
    }
}

/// The whole number that is stored as a word.
fn whole_in(low: i32, width: usize, word: u32) -> i32
    requires width { (1 ≤ width) × (width ≤ 2) }
    requires word { word < 256 ^ width }
    requires small { word < 2 ^ 31 }
    ensures { result ≡ whole_in low width word }
{
    if low < 0 {
        signed_of(width, word)
    } else {
        word as i32
    }
}

/// The magnitude, or its negative.
fn with_sign(negative: bool, magnitude: u32) -> i32
    requires { magnitude < 2 ^ 31 }
    ensures { result ≡ signed negative magnitude }
{
    if negative {
        -(magnitude as i32)
    } else {
        magnitude as i32
    }
}

/// The parameter that is stored from a place on.
fn param_at(param: Use, negative: bool, bytes: &[u8; 12], start: usize) -> u32
    requires usual { IsUse param }
    requires room { start + stored_width param ≤ 12 }
    ensures { IsParam param negative (part_at start (stored_width param) bytes.now) result }
{
    match param {
        Use::Unused => 0,
        Use::Whole(low, _, width) => {
            bits_of(whole_in(low, width, number_of(&bytes[start..start + width])))
        }
        Use::Signed(_, width) => {
            bits_of(with_sign(negative, number_of(&bytes[start..start + width])))
        }
        Use::Pattern => number_of(&bytes[start..start + 4]),
    }
}

/// The frame of a location with these flags.
fn frame_with(flags: u8) -> u8
    ensures { result ≡ frame_with flags }
{
    if flags / 2 % 2 == 1 {
        10
    } else if flags % 2 == 1 {
        3
    } else {
        0
    }
}

/// The place of a command.
fn place_of(shape: Shape, content: &[u8; 12]) -> Place
    ensures { IsPlaceOf shape content.now result.frame result.x result.y result.z }
{
    match shape {
        Shape::Located => Place {
            frame: frame_with(content[0]),
            x: signed_of(4, number_of(&content[4..8])),
            y: signed_of(4, number_of(&content[8..12])),
            z: bits_of_centimetres(signed_of(3, number_of(&content[1..4]))),
        },
        _ => Place {
            frame: 2,
            x: 0,
            y: 0,
            z: bits_of_centimetres(0),
        },
    }
}

/// The bytes of the parameters.
fn parameter_bytes(shape: Shape, command: &Command) -> [u8; 12]
    ensures { result ≡ parameter_bytes shape command.now }
{
    match shape {
        Shape::Plain => command.content,
        _ => [
            (command.p1 % 256) as u8,
            (command.p1 / 256) as u8,
            0,
            0,
            0,
            0,
            0,
            0,
            0,
            0,
            0,
            0,
        ],
    }
}

/// The item that a stored command is sent as: fields that aren't stored are 0, autocontinue is 1.
pub fn to_item(command: &Command, seq: u16) -> Item
    ensures { IsItemOf command.now seq result }
{
    let row = row_of(command.id);
    let bytes = parameter_bytes(row.shape, command);
    let negative = command.content[0] / 4 % 2 == 1;
    let second = stored_width(row.param1);
    let third = second + stored_width(row.param2);
    let fourth = third + stored_width(row.param3);
    let place = place_of(row.shape, &command.content);
    Item {
        param1: param_at(row.param1, negative, &bytes, 0),
        param2: param_at(row.param2, negative, &bytes, second),
        param3: param_at(row.param3, negative, &bytes, third),
        param4: param_at(row.param4, negative, &bytes, fourth),
        x: place.x,
        y: place.y,
        z: place.z,
        seq,
        command: command.id,
        frame: place.frame,
        current: 0,
        autocontinue: 1,
    }
}
