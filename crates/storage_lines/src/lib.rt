//! The lines of the storage, its areas, and the line writes of a change.
#![tactic(auto)]

mod areas;
mod laws;
mod lines;
pub mod numbers;
mod pieces;

pub use areas::Area;
pub use laws::{areas_are_apart, changes_in_lines, pieces_are_lines, pieces_in_steps};
pub use lines::{BATCH_LINES, Batch, LINES, LineWrite, STORAGE_BYTES, apply, sizes};
pub use pieces::{SplitError, read, split};

#[cfg(test)]
mod tests;
