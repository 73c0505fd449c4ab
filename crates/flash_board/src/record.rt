//! What a board in memory is fed, and the calls that it has recorded.
use crate::Region;
use arrayvec::ArrayVec;

/// What a board in memory receives.
#[derive(Clone, Drop)]
pub enum Feed {
    /// A datagram from a peer below 8.
    Datagram { peer: u8, bytes: ArrayVec<u8, 2048> },
    Idle,
    End,
}

/// A frame that was sent.
#[derive(Drop)]
pub(crate) struct Sent {
    pub(crate) peer: u8,
    pub(crate) bytes: ArrayVec<u8, 280>,
}

/// A call since the last attach. `done` says that it didn't fail, and `next` is a place in the
/// feed.
#[derive(Drop)]
pub(crate) enum Call {
    Program {
        region: Region,
        at: usize,
        word: u16,
        done: bool,
    },
    Erase {
        region: Region,
        done: bool,
    },
    Recv {
        next: usize,
        done: bool,
    },
    Send {
        peer: u8,
        bytes: ArrayVec<u8, 280>,
        done: bool,
    },
}
