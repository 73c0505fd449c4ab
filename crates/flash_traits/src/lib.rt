//! A flash device with a link, as the storage above sees it: what reads give, and what a loss of
//! power may leave.
//!
//! `Board` is the device and its link, `Source` and `Sink` are bytes that come in and go out.
#![tactic(auto)]

mod arming;
mod board;
mod geometry;
mod halfwords;
mod mark;
mod numbers;
mod pair;
mod stream;

pub use arming::budget;
pub use board::{Board, Event, Failed, Fault, Geometry, LogError, Mark, Region};
pub use geometry::{is_sector_size, size_of_image};
pub use halfwords::{program_halfword, read_halfword};
pub use numbers::{
    CHUNKS, COPY_BYTES, DATAGRAM_BYTES, ERASED, FRAME_BYTES, GUARD_HALFWORDS, LINES, SIGNATURE,
    STATIONS, limits,
};
pub use pair::program_pair;
pub use stream::{Sink, Source};
