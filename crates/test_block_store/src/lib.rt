//! Losses of power in a store and in the lines that wait for it, over boards in memory.
#![tactic(auto)]

#[cfg(test)]
mod lines;
#[cfg(test)]
mod stores;
