//! The items of a fence: from the item of a message, by rules in one order, and back.

ghost use Rattle.std.specs.Prelude.{◌≡◌, MatchBool};
ghost use Rattle.mission_commands.specs.Commands.{IsTested, IsLatitude, IsLongitude, is_frame};
ghost use Rattle.mission_commands.specs.declared.table.Shape.TheVariants.{Plain};
ghost use Rattle.fence_records.specs.Results.{item_of};
ghost use Rattle.fence_records.specs.Items.{kind_of, AllowsKind, MeetsFence, fence_rules};
ghost use Rattle.fence_records.specs.Items.{fence_item_of};

use mission_commands::Item;
use word_bits::{is_finite, whole_of};

/// A vertex, a circle or a return point. `param1` is a binary32 pattern: a polygon's count of
/// vertices, a circle's radius in metres, 0 for a return point. `x` and `y` are latitude and
/// longitude in 1e-7 degree.
#[derive(Clone, Copy, Default, Drop)]
pub struct FenceItem {
    pub command: u16,
    pub param1: u32,
    pub x: i32,
    pub y: i32,
}

/// Latitude and longitude in 1e-7 degree.
#[derive(Clone, Copy, Drop)]
pub struct Point {
    pub x: i32,
    pub y: i32,
}

/// What an item is, by its MAV_CMD: 5000 a return point, 5001 and 5002 a vertex of an inclusion or
/// exclusion, 5003 and 5004 a circle of one.
#[derive(Clone, Copy, Drop)]
pub enum Kind {
    Return,
    Vertex,
    Circle,
    Unknown,
}

/// What an item with this command is.
pub fn kind_of(command: u16) -> Kind
    ensures { result ≡ kind_of command }
{
    match command {
        5000 => Kind::Return,
        5001 | 5002 => Kind::Vertex,
        5003 | 5004 => Kind::Circle,
        _ => Kind::Unknown,
    }
}

/// Whether the parameter goes with an item of this kind.
fn is_allowed(kind: Kind, bits: u32) -> bool
    ensures { MatchBool result (AllowsKind kind bits) (¬ AllowsKind kind bits) }
{
    match kind {
        Kind::Return => true,
        Kind::Vertex => match whole_of(bits) {
            Some(count) => 3 <= count && count <= 51,
            None => false,
        },
        Kind::Circle => bits != 0 && bits < 0x8000_0000 && is_finite(bits),
        Kind::Unknown => false,
    }
}

/// Whether it is one of the frames of an item.
fn is_frame(frame: u8) -> bool
    ensures { result ≡ is_frame Plain frame }
{
    matches!(frame, 0 | 2 | 3 | 5 | 6 | 10 | 11)
}

fn is_latitude(x: i32) -> bool
    ensures { MatchBool result (IsLatitude x) (¬ IsLatitude x) }
{
    -900_000_000 <= x && x <= 900_000_000
}

fn is_longitude(y: i32) -> bool
    ensures { MatchBool result (IsLongitude y) (¬ IsLongitude y) }
{
    -1_800_000_000 <= y && y <= 1_800_000_000
}

/// What is kept of the item.
fn fence_item_of(item: &Item) -> FenceItem
    ensures { result ≡ fence_item_of item.now }
{
    let param1 = if item.command == 5000 { 0 } else { item.param1 };
    FenceItem {
        command: item.command,
        param1,
        x: item.x,
        y: item.y,
    }
}

/// The item of a fence, or the answer (MAV_MISSION_RESULT) of the first rule that it breaks: 3 the
/// command isn't listed, 2 the frame, 6 the parameter, 10 the latitude, 11 the longitude.
pub fn from_item(item: &Item) -> Result<FenceItem, u8>
    ensures { IsTested (MeetsFence item.now) fence_rules (λ f. f ≡ fence_item_of item.now) result }
{
    let kind = kind_of(item.command);
    if let Kind::Unknown = kind {
        return Err(3);
    }
    if !is_frame(item.frame) {
        return Err(2);
    }
    if !is_allowed(kind, item.param1) {
        return Err(6);
    }
    if !is_latitude(item.x) {
        return Err(10);
    }
    if !is_longitude(item.y) {
        return Err(11);
    }
    Ok(fence_item_of(item))
}

/// The item of a message that a fence's item is sent as: fields that aren't stored are 0,
/// autocontinue is 1.
pub fn to_item(item: &FenceItem, seq: u16) -> Item
    ensures { result ≡ item_of item.now seq }
{
    Item {
        param1: item.param1,
        param2: 0,
        param3: 0,
        param4: 0,
        x: item.x,
        y: item.y,
        z: 0,
        seq,
        command: item.command,
        frame: 0,
        current: 0,
        autocontinue: 1,
    }
}
