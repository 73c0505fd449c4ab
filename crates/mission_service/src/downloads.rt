//! MISSION_REQUEST_LIST, MISSION_REQUEST_INT and MISSION_REQUEST: how many items are stored, and
//! which.
ghost use Rattle.std.specs.Prelude.{◌≡◌, length};
ghost use Rattle.mission_service.specs.Service.{total, shown};

use crate::replies::{Content, INVALID_SEQUENCE};
use crate::requests::MissionType;
use fence_records::parse;
use storage_lines::STORAGE_BYTES;

/// How many items of a type are stored.
pub fn total(kind: MissionType, current: &[u8]) -> u16
    requires { length current.now ≡ STORAGE_BYTES }
    ensures { result ≡ total kind current.now }
{
    match kind {
        MissionType::Mission => mission_records::total(current),
        MissionType::Fence => parse(current).len() as u16,
    }
}

/// What tells a stored item: that there is none, where the number is too high.
pub fn show(kind: MissionType, seq: u16, current: &[u8]) -> Content
    requires { length current.now ≡ STORAGE_BYTES }
    ensures { result ≡ shown kind current.now seq }
{
    match kind {
        MissionType::Mission => match mission_records::at(current, seq) {
            Some(command) => Content::MissionItem(seq, command),
            None => Content::Answer(INVALID_SEQUENCE),
        },
        MissionType::Fence => match parse(current).get(seq as usize) {
            Some(item) => Content::FencePart(seq, *item),
            None => Content::Answer(INVALID_SEQUENCE),
        },
    }
}
