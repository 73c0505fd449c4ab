//! Standard input and output as a source and a sink, whose bytes nobody tells.
ghost use Rattle.std.specs.Prelude.{[], ℕ};

use flash_traits::{Failed, Sink, Source};
use std::io::{Read, Write};

/// The bytes of a reader.
#[derive(Drop)]
pub(crate) struct ReaderSource<R: Read + Drop> {
    reader: R,
    faults: u64,
}

impl<R: Read + Drop> ReaderSource<R> {
    pub(crate) fn new(reader: R) -> ReaderSource<R> {
        ReaderSource { reader, faults: 0 }
    }
}

impl<R: Read + Drop> Source for ReaderSource<R> {
    ghost tells_given = { λ _. ⊥ };

    ghost given = { λ _. [] };

    ghost tells_rest = { λ _. ⊥ };

    ghost rest = { λ _. [] };

    ghost faults = { λ s. s.faults };

    fn read(&mut self, into: &mut [u8]) -> Result<usize, Failed> {
        match self.reader.read(into) {
            Ok(count) => Ok(count),
            Err(_) => {
                self.faults = self.faults.saturating_add(1);
                Err(Failed)
            }
        }
    }
}

/// A writer that takes bytes.
#[derive(Drop)]
pub(crate) struct WriterSink<W: Write + Drop> {
    writer: W,
    faults: u64,
}

impl<W: Write + Drop> WriterSink<W> {
    pub(crate) fn new(writer: W) -> WriterSink<W> {
        WriterSink { writer, faults: 0 }
    }
}

impl<W: Write + Drop> Sink for WriterSink<W> {
    ghost tells_written = { λ _. ⊥ };

    ghost written = { λ _. [] };

    ghost faults = { λ s. s.faults };

    fn write_all(&mut self, from: &[u8]) -> Result<(), Failed> {
        match self.writer.write_all(from) {
            Ok(()) => Ok(()),
            Err(_) => {
                self.faults = self.faults.saturating_add(1);
                Err(Failed)
            }
        }
    }
}
