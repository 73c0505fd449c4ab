//! Sessions of a node, over boards in memory: each loss of power in sets and uploads, and what two
//! stations are sent.
#![tactic(auto)]

#[cfg(test)]
mod tests;
