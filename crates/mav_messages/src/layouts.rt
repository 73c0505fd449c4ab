//! Where each message has its fields.
//!
//! Source: MAVLink common message set. Fields stand in wire order, extensions last; which
//! extensions there are is this project's profile.

use crate::ids;

/// The type of a field in MAVLink's definitions.
#[derive(Clone, Copy, Debug, Drop)]
pub enum FieldKind {
    Char,
    Uint8,
    Uint16,
    Int16,
    Uint32,
    Int32,
    Float,
}

/// A field of a payload: its type, the offset and the width of its first element in bytes, and the
/// number of its elements, which is 0 where it is no array. An extension is a field that version 1
/// doesn't send.
#[derive(Clone, Copy, Debug, Drop)]
pub struct Row {
    pub kind: FieldKind,
    pub offset: u8,
    pub width: u8,
    pub array: u8,
    pub extension: bool,
}

/// The layout of a message: its id, its CRC_EXTRA, and its N fields in the order of its payload.
#[derive(Clone, Copy, Debug, Drop)]
pub struct Layout<const N: usize> {
    pub id: u32,
    pub extra: u8,
    pub rows: [Row; N],
}

macro_rules! row {
    ($kind:ident, $width:literal, $offset:literal, $array:literal, $extension:literal) => {
        Row {
            kind: FieldKind::$kind,
            offset: $offset,
            width: $width,
            array: $array,
            extension: $extension,
        }
    };
}

/// HEARTBEAT: the vehicle is there, and of which kind it is.
pub const HEARTBEAT: Layout<6> = Layout {
    id: ids::HEARTBEAT,
    extra: 50,
    rows: [
        row!(Uint32, 4, 0, 0, false),
        row!(Uint8, 1, 4, 0, false),
        row!(Uint8, 1, 5, 0, false),
        row!(Uint8, 1, 6, 0, false),
        row!(Uint8, 1, 7, 0, false),
        row!(Uint8, 1, 8, 0, false),
    ],
};

/// PARAM_REQUEST_READ: asks for one parameter, by index or by name.
pub const PARAM_REQUEST_READ: Layout<4> = Layout {
    id: ids::PARAM_REQUEST_READ,
    extra: 214,
    rows: [
        row!(Int16, 2, 0, 0, false),
        row!(Uint8, 1, 2, 0, false),
        row!(Uint8, 1, 3, 0, false),
        row!(Char, 1, 4, 16, false),
    ],
};

/// PARAM_REQUEST_LIST: asks for all parameters.
pub const PARAM_REQUEST_LIST: Layout<2> = Layout {
    id: ids::PARAM_REQUEST_LIST,
    extra: 159,
    rows: [row!(Uint8, 1, 0, 0, false), row!(Uint8, 1, 1, 0, false)],
};

/// PARAM_VALUE: a parameter with its value.
pub const PARAM_VALUE: Layout<5> = Layout {
    id: ids::PARAM_VALUE,
    extra: 220,
    rows: [
        row!(Float, 4, 0, 0, false),
        row!(Uint16, 2, 4, 0, false),
        row!(Uint16, 2, 6, 0, false),
        row!(Char, 1, 8, 16, false),
        row!(Uint8, 1, 24, 0, false),
    ],
};

/// PARAM_SET: sets a parameter by name.
pub const PARAM_SET: Layout<5> = Layout {
    id: ids::PARAM_SET,
    extra: 168,
    rows: [
        row!(Float, 4, 0, 0, false),
        row!(Uint8, 1, 4, 0, false),
        row!(Uint8, 1, 5, 0, false),
        row!(Char, 1, 6, 16, false),
        row!(Uint8, 1, 22, 0, false),
    ],
};

/// MISSION_REQUEST: asks for an item of a list, in its old form.
pub const MISSION_REQUEST: Layout<4> = Layout {
    id: ids::MISSION_REQUEST,
    extra: 230,
    rows: [
        row!(Uint16, 2, 0, 0, false),
        row!(Uint8, 1, 2, 0, false),
        row!(Uint8, 1, 3, 0, false),
        row!(Uint8, 1, 4, 0, true),
    ],
};

/// MISSION_REQUEST_LIST: asks how many items a list has.
pub const MISSION_REQUEST_LIST: Layout<3> = Layout {
    id: ids::MISSION_REQUEST_LIST,
    extra: 132,
    rows: [
        row!(Uint8, 1, 0, 0, false),
        row!(Uint8, 1, 1, 0, false),
        row!(Uint8, 1, 2, 0, true),
    ],
};

/// MISSION_COUNT: how many items a list has: begins an upload, or answers a request.
pub const MISSION_COUNT: Layout<4> = Layout {
    id: ids::MISSION_COUNT,
    extra: 221,
    rows: [
        row!(Uint16, 2, 0, 0, false),
        row!(Uint8, 1, 2, 0, false),
        row!(Uint8, 1, 3, 0, false),
        row!(Uint8, 1, 4, 0, true),
    ],
};

/// MISSION_CLEAR_ALL: empties a list.
pub const MISSION_CLEAR_ALL: Layout<3> = Layout {
    id: ids::MISSION_CLEAR_ALL,
    extra: 232,
    rows: [
        row!(Uint8, 1, 0, 0, false),
        row!(Uint8, 1, 1, 0, false),
        row!(Uint8, 1, 2, 0, true),
    ],
};

/// MISSION_ACK: ends an upload or a download.
pub const MISSION_ACK: Layout<4> = Layout {
    id: ids::MISSION_ACK,
    extra: 153,
    rows: [
        row!(Uint8, 1, 0, 0, false),
        row!(Uint8, 1, 1, 0, false),
        row!(Uint8, 1, 2, 0, false),
        row!(Uint8, 1, 3, 0, true),
    ],
};

/// MISSION_REQUEST_INT: asks for an item of a list.
pub const MISSION_REQUEST_INT: Layout<4> = Layout {
    id: ids::MISSION_REQUEST_INT,
    extra: 196,
    rows: [
        row!(Uint16, 2, 0, 0, false),
        row!(Uint8, 1, 2, 0, false),
        row!(Uint8, 1, 3, 0, false),
        row!(Uint8, 1, 4, 0, true),
    ],
};

/// MISSION_ITEM_INT: an item of a list.
pub const MISSION_ITEM_INT: Layout<15> = Layout {
    id: ids::MISSION_ITEM_INT,
    extra: 38,
    rows: [
        row!(Float, 4, 0, 0, false),
        row!(Float, 4, 4, 0, false),
        row!(Float, 4, 8, 0, false),
        row!(Float, 4, 12, 0, false),
        row!(Int32, 4, 16, 0, false),
        row!(Int32, 4, 20, 0, false),
        row!(Float, 4, 24, 0, false),
        row!(Uint16, 2, 28, 0, false),
        row!(Uint16, 2, 30, 0, false),
        row!(Uint8, 1, 32, 0, false),
        row!(Uint8, 1, 33, 0, false),
        row!(Uint8, 1, 34, 0, false),
        row!(Uint8, 1, 35, 0, false),
        row!(Uint8, 1, 36, 0, false),
        row!(Uint8, 1, 37, 0, true),
    ],
};

/// COMMAND_LONG: a command with up to seven parameters.
pub const COMMAND_LONG: Layout<11> = Layout {
    id: ids::COMMAND_LONG,
    extra: 152,
    rows: [
        row!(Float, 4, 0, 0, false),
        row!(Float, 4, 4, 0, false),
        row!(Float, 4, 8, 0, false),
        row!(Float, 4, 12, 0, false),
        row!(Float, 4, 16, 0, false),
        row!(Float, 4, 20, 0, false),
        row!(Float, 4, 24, 0, false),
        row!(Uint16, 2, 28, 0, false),
        row!(Uint8, 1, 30, 0, false),
        row!(Uint8, 1, 31, 0, false),
        row!(Uint8, 1, 32, 0, false),
    ],
};

/// COMMAND_ACK: what became of a command.
pub const COMMAND_ACK: Layout<6> = Layout {
    id: ids::COMMAND_ACK,
    extra: 143,
    rows: [
        row!(Uint16, 2, 0, 0, false),
        row!(Uint8, 1, 2, 0, false),
        row!(Uint8, 1, 3, 0, true),
        row!(Int32, 4, 4, 0, true),
        row!(Uint8, 1, 8, 0, true),
        row!(Uint8, 1, 9, 0, true),
    ],
};
