//! A frame as it is read from its bytes, and the start bytes of the two versions.

use arrayvec::ArrayVec;

/// The start byte of a frame of version 1.
pub(crate) const V1: u8 = 0xFE;

/// The start byte of a frame of version 2.
pub(crate) const V2: u8 = 0xFD;

/// The bytes of a frame that is written: at most 76, since no payload is longer than 64.
pub type FrameBytes = ArrayVec<u8, 80>;

/// A frame that was cut from a stream: its version, its incompat flags (0 in version 1), the
/// sender's sequence number, system and component, the message's id, and the payload as it was
/// sent. `right` says that the id is listed, that the CRC agrees, and that no incompat flag is set
/// but for bit 0, by which the frame is signed. The signature is not kept.
#[derive(Debug, Drop)]
pub struct Frame {
    pub v2: bool,
    pub incompat: u8,
    pub seq: u8,
    pub system: u8,
    pub component: u8,
    pub id: u32,
    pub payload: ArrayVec<u8, 255>,
    pub right: bool,
}

/// Who sent a frame, and in which version.
#[derive(Clone, Copy, Debug, Drop)]
pub struct Heading {
    pub v2: bool,
    pub system: u8,
    pub component: u8,
}
