//! The commands of a mission: from the item of a message to what is stored, and back.
//!
//! Which parameters are stored and how they are tested is a table; the rules are tried in one
//! order, and the first that an item breaks gives the answer.
#![tactic(auto)]

mod commands;
mod laws;
mod table;

pub use commands::{Command, Item, to_command, to_item};
pub use laws::{comes_back, has_one_result, stores_fit};
pub use table::{Row, Shape, Use};

#[cfg(test)]
mod tests;
