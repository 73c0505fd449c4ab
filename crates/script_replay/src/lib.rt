//! `replay`: a script is run over the words of an image in memory, by nodes that are opened again
//! after each loss of power.
//!
//! What is printed, and what the words stand for at the end, is a history of runs.
#![tactic(auto)]

mod held;
mod player;
mod replaying;
mod start;
mod still;

pub use replay::Stop;
pub use replaying::replay_script;
