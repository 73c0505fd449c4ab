//! Legacy images: two sectors without a guard row, with a storage of 15,360 bytes. They are read
//! into these bytes, and made of them.
#![tactic(auto)]

mod heads;
mod laws;
mod log;
mod numbers;
mod reading;
mod writing;

pub use laws::{one_reading, round_trip};
pub use numbers::{LEGACY_BYTES, LEGACY_LINES, MOST_INPUT, limits};
pub use reading::{LegacyError, import};
pub use writing::export;

#[cfg(test)]
mod tests;
