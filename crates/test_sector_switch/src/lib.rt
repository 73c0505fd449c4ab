//! Losses of power in the switch, over boards in memory.
#![tactic(auto)]

#[cfg(test)]
mod tests;
