//! What an image holds, as text: what it stands for, and how each of its parts is.
//!
//! `dump` prints the bytes of an image in one of the four states. `report` prints what any words
//! are, region by region. Both only read the board. All memory is taken before the first read, and
//! the text goes out in pieces.
#![tactic(auto)]

mod dumping;
mod errors;
mod fence;
mod findings;
mod laws;
mod lines;
mod mission;
mod output;
mod params;
mod reporting;

pub use dumping::dump;
pub use errors::ReportError;
pub use laws::one_text;
pub use reporting::report;
