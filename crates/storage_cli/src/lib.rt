//! The commands of the storage: what the words ask for, done over a board, and what is printed of
//! it.
#![tactic(auto)]

mod commands;
mod copying;
mod format;
mod generating;
mod printing;
mod replaying;
mod serving;
mod status;
mod stop;
mod texts;

pub use commands::run;
pub use status::{
    ATTACH_FAILED, DONE, FLASH_FAILED, FOREIGN_WORD, INPUT_FAILED, LINK_FAILED, NO_COMMAND,
    NO_MEMORY, OUTPUT_FAILED, READ_FAILED, SCRIPT_REFUSED, Status, TURNS_OVER, WORN, statuses,
};

#[cfg(test)]
mod tests;
