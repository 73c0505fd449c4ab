//! Old parameter records carried over: a rule tells which record is stored anew, under another key.
#![tactic(auto)]

mod conversion;
mod laws;
mod rules;

pub use conversion::convert;
pub use laws::converts_in_steps;
pub use rules::{Rule, vehicle_rules};

#[cfg(test)]
mod tests;
