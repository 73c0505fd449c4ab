//! The stored mission: its commands, and the line writes that begin it and put one command more.
//!
//! MIS_TOTAL says how many commands are stored. It lies among the parameters, and is written last
//! where a command is put, so that a loss leaves the mission with the command or without it.
#![tactic(auto)]

mod laws;
mod reading;
mod writing;

pub use laws::{
    begins_in_steps, clears_in_steps, formats_in_one_line, others_keep_missions, puts_in_steps,
    sets_no_mission,
};
pub use reading::{CAPACITY, TOTAL_INDEX, at, limits, total, total_in_one_line};
pub use writing::{MISSION_LINES, begin, clear, put};

#[cfg(test)]
mod tests;
