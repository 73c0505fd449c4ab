//! Sessions of commands over boards in memory: what is printed, what is sent, and what is asked of
//! the board.
#![tactic(auto)]

#[cfg(test)]
mod commands;
#[cfg(test)]
mod failing;
#[cfg(test)]
mod generated;
#[cfg(test)]
mod images;
#[cfg(test)]
mod memory;
#[cfg(test)]
mod realistic;
#[cfg(test)]
mod replays;
#[cfg(test)]
mod texts;
