//! Two sectors and a guard row as one image of the storage.
//!
//! An image stands for 15,360 bytes in each of four states, or has a first foreign word. A survey
//! tells which, and reads the bytes.
#![tactic(auto)]

mod chunks;
mod coverage;
mod images;
mod kept;
mod laws;
mod logs;
mod surveying;

pub use chunks::torn_chunk;
pub use images::Images;
pub use kept::{Kept, Shape, Survey, SurveyError};
pub use laws::one_of_both;
pub use surveying::survey;
