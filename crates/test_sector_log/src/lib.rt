//! Losses of power in a sector's log and in the guard row, over boards in memory.
#![tactic(auto)]

#[cfg(test)]
mod guard;
#[cfg(test)]
mod logs;
