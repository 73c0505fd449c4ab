//! The guard row: halfwords that are programmed to 0 one after the other, and count the switches
//! from sector to sector.
#![tactic(auto)]

mod home;
mod laws;
mod row;

pub use home::{first_sector, home_of, second_sector, sector_beside, void_of};
pub use laws::{home_or_void, one_of_both};
pub use row::{GuardError, count, step};

#[cfg(test)]
mod tests;
