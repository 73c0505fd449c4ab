//! The pieces that printed lines have in common: a line's buffer, numbers, digits, and the names of
//! the flash's parts.
#![tactic(auto)]

mod line;
mod names;

pub use line::{LINE_BYTES, Line, push, push_hex, push_number, push_place};
pub use names::{mark_name, region_name};

#[cfg(test)]
mod tests;
