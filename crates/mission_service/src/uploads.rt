//! What is known of the uploads of a type, and which item is the next one of an open upload.
ghost use Rattle.std.specs.Prelude.{◌≡◌, ◌<◌, ◌≤◌, ◌+◌, ℕ, List, [], length};
ghost use Rattle.fence_records.specs.declared.items.FenceItem.{FenceItem};
ghost use Rattle.mission_service.specs.Service.{is_anothers, is_last, after_item, told_after};
ghost use Rattle.mission_service.specs.Service.{cancelled};
ghost use Rattle.mission_service.specs.Steps.Inside.{uploads_seen, upload_seen, IsOpenRight};
ghost use Rattle.mission_service.specs.Steps.Inside.{AreKept};
ghost use Rattle.mission_service.specs.Steps.Parts.{IsExpected};

use crate::replies::{ACCEPTED, Content, DENIED, ERROR, INVALID_SEQUENCE};

/// The most items of a fence's upload.
pub const FENCE_ITEMS: usize = 51;

/// How many idle turns in a row close an upload.
pub const IDLE_TURNS: u8 = 8;

/// The system and component that a message is sent to.
#[derive(Clone, Copy, Drop)]
pub struct Target {
    pub system: u8,
    pub component: u8,
}

/// Who asks for something: the station, its system and component, and the number of the
/// MAV_MISSION_TYPE that it asks of.
#[derive(Clone, Copy, Drop)]
pub struct Asker {
    pub station: u8,
    pub target: Target,
    pub number: u8,
}

/// An open upload: its station, whom its COUNT came from, how many items it has, which one is next,
/// and how many idle turns passed since its COUNT or an item was last accepted.
#[derive(Clone, Copy, Drop)]
pub struct Upload {
    pub owner: u8,
    pub target: Target,
    pub count: u16,
    pub expected: u16,
    pub idle: u8,
}

/// The uploads of a type: one is open, or the last one was finished with this station's item of
/// this number, or neither.
#[derive(Clone, Copy, Drop)]
pub enum Uploads {
    Quiet,
    Open(Upload),
    Finished { station: u8, last: u16 },
}

/// Whether another station's upload is open.
pub fn is_anothers(uploads: &Uploads, station: u8) -> bool
    ensures { (kept : List FenceItem) →
        result ≡ is_anothers station (uploads_seen kept uploads.now) }
{
    match uploads {
        Uploads::Open(upload) => upload.owner != station,
        Uploads::Quiet | Uploads::Finished { .. } => false,
    }
}

/// The open upload that an item is the next one of, or else what its station is told.
pub fn expected_by(uploads: &Uploads, asker: &Asker, seq: u16) -> Result<Upload, Content>
    ensures { IsExpected uploads.now asker.now seq result }
{
    match uploads {
        Uploads::Quiet => Err(Content::Answer(ERROR)),
        Uploads::Finished { station, last } => {
            if *station == asker.station && *last == seq {
                Err(Content::Answer(ACCEPTED))
            } else {
                Err(Content::Answer(ERROR))
            }
        }
        Uploads::Open(upload) => {
            if upload.owner != asker.station {
                Err(Content::Answer(DENIED))
            } else if seq as u32 + 1 == upload.expected as u32 {
                Err(Content::Next(upload.expected))
            } else if seq != upload.expected {
                Err(Content::Answer(INVALID_SEQUENCE))
            } else {
                Ok(*upload)
            }
        }
    }
}

/// Whether the next item is the last one.
pub fn is_last(upload: &Upload) -> bool
    requires { upload.now.expected < upload.now.count }
    ensures { result ≡ is_last (upload_seen [] upload.now) }
{
    upload.expected + 1 == upload.count
}

/// The uploads after the next item was taken.
pub fn after_item(upload: &Upload, station: u8) -> Uploads
    requires { upload.now.expected < upload.now.count }
    ensures seen { (before kept : List FenceItem) → uploads_seen kept result
        ≡ after_item (upload_seen before upload.now) station kept }
    ensures right { (most : ℕ) → upload.now.count ≤ most → IsOpenRight most result }
    ensures kept { (kept : List FenceItem) → (upload.now.expected + 1 < upload.now.count
        → length kept ≡ upload.now.expected + 1) → AreKept result kept }
{
    if is_last(upload) {
        Uploads::Finished {
            station,
            last: upload.expected,
        }
    } else {
        Uploads::Open(Upload {
            expected: upload.expected + 1,
            idle: 0,
            ..*upload
        })
    }
}

/// What is told after the next item was taken: the next one is asked for, or the upload is
/// accepted.
pub fn told_after(upload: &Upload) -> Content
    requires { upload.now.expected < upload.now.count }
    ensures { result ≡ told_after (upload_seen [] upload.now) }
{
    if is_last(upload) {
        Content::Answer(ACCEPTED)
    } else {
        Content::Next(upload.expected + 1)
    }
}

/// The uploads after the station cancelled its own.
pub fn cancelled(uploads: &Uploads, station: u8) -> Uploads
    ensures seen { (kept : List FenceItem) →
        uploads_seen kept result ≡ cancelled station (uploads_seen kept uploads.now) }
    ensures right { (most : ℕ) → IsOpenRight most uploads.now → IsOpenRight most result }
    ensures kept { (kept : List FenceItem) → AreKept uploads.now kept → AreKept result kept }
{
    match uploads {
        Uploads::Open(upload) => {
            if upload.owner == station {
                Uploads::Quiet
            } else {
                *uploads
            }
        }
        Uploads::Quiet | Uploads::Finished { .. } => *uploads,
    }
}
