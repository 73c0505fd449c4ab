//! The lines of a replay script: their grammar, one line read from its text, and the next line's
//! text out of a source.
//!
//! A script has a line for each datagram that came, for each idle turn, for each loss of power and
//! for its end. docs/FORMATS.md has the grammar as a table.
#![tactic(auto)]

mod laws;
mod line;
mod numbers;
mod parsing;
mod reading;

pub use laws::{one_reading, one_script};
pub use line::{ScriptLine, Waiting};
pub use numbers::{LAST_CALL, LOSS_WAYS, READ_BYTES, SCRIPT_LINE_BYTES, SCRIPT_LINES, limits};
pub use parsing::parse;
pub use reading::{Next, next_text};

#[cfg(test)]
mod tests;
