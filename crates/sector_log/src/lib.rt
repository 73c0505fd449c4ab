//! The log of one flash sector: entries behind a mark, and erased halfwords behind them.
#![tactic(auto)]

mod header;
mod heads;
mod laws;
mod log;
mod reading;
mod torn;
mod writing;

pub use header::{Header, header_of, word_of};
pub use heads::{Marks, begin_sector, read_head, set_mark};
pub use laws::{
    each_halfword_is_tested, last_entry_counts, one_header, one_of_both, one_reading, two_parts,
};
pub use log::{Log, Torn};
pub use reading::scan;
pub use torn::torn_fits;
pub use writing::{append, finish_torn};

#[cfg(test)]
mod tests;
