//! Boards for whole sessions: one whose events are those of a generated session.
//!
//! The session is said in docs/FORMATS.md. Its events come from their numbers, so that a session of
//! any length takes no memory.
#![tactic(auto)]

mod count_board;
mod device;
mod laws;
mod messages;
mod session;

pub use count_board::{CountBoard, Session};
pub use laws::{one_session, session_ends};
pub use messages::{STATION_COMPONENT, STATION_SYSTEM};

#[cfg(test)]
mod tests;
