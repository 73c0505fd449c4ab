//! Boards, sources and sinks in memory, which tell what they hold.
//!
//! Calls of `MemBoard`, `MemSource` and `MemSink` fail by their number; those of `SureBoard`,
//! `SureSource` and `SureSink` never fail. What they stand for, `Board`, `Source` and `Sink`, is
//! passed on from `flash_traits`.
#![tactic(auto)]

mod counts;
mod flash;
mod input;
mod load;
mod mem_board;
mod mem_sink;
mod mem_source;
mod memory;
mod output;
mod record;
mod sure_board;
mod sure_sink;
mod sure_source;

pub use flash_traits::{
    Board, DATAGRAM_BYTES, ERASED, Event, FRAME_BYTES, Failed, Fault, GUARD_HALFWORDS, Geometry,
    LINES, LogError, Mark, Region, SIGNATURE, STATIONS, Sink, Source, budget, is_sector_size,
    program_pair, size_of_image,
};
pub use mem_board::MemBoard;
pub use mem_sink::MemSink;
pub use mem_source::MemSource;
pub use record::Feed;
pub use sure_board::SureBoard;
pub use sure_sink::SureSink;
pub use sure_source::SureSource;

#[cfg(test)]
mod tests;
