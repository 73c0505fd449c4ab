//! The ids of the messages. Source: MAVLink common message set.

pub(crate) const HEARTBEAT: u32 = 0;

pub(crate) const PARAM_REQUEST_READ: u32 = 20;

pub(crate) const PARAM_REQUEST_LIST: u32 = 21;

pub(crate) const PARAM_VALUE: u32 = 22;

pub(crate) const PARAM_SET: u32 = 23;

pub(crate) const MISSION_REQUEST: u32 = 40;

pub(crate) const MISSION_REQUEST_LIST: u32 = 43;

pub(crate) const MISSION_COUNT: u32 = 44;

pub(crate) const MISSION_CLEAR_ALL: u32 = 45;

pub(crate) const MISSION_ACK: u32 = 47;

pub(crate) const MISSION_REQUEST_INT: u32 = 51;

pub(crate) const MISSION_ITEM_INT: u32 = 73;

pub(crate) const COMMAND_LONG: u32 = 76;

pub(crate) const COMMAND_ACK: u32 = 77;
