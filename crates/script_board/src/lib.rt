//! The board of a replay: the image's words in memory, the events of a script, and each frame as a
//! printed line.
//!
//! The script is read line by line from a source, and says at which program or erase calls power is
//! lost. docs/FORMATS.md has its grammar and what is printed.
#![tactic(auto)]

mod ahead;
mod board;
mod device;
pub mod image;
mod printing;
mod taking;
mod waiting;

pub use board::{ScriptBoard, ScriptMark};
pub use image::{IMAGE_BYTES, sizes};
pub use printing::FRAME_LINE_BYTES;
pub use script_lines::Waiting;
pub use waiting::{WAITING_LOSSES, limits};
