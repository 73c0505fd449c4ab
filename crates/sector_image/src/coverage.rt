//! Which chunks the sector in use gives as the image has them: a mark for each, and how many have
//! none. So neither the room of a spilled image nor the next chunk to copy takes a comparison of
//! the bytes.
ghost use Rattle.std.specs.Prelude.{◌≡◌, ◌≢◌, ◌↔◌, ◌⊎◌, ◌<◌, ◌≤◌, ℕ, List, true, false, not, IsTrue, length, position};
ghost use Rattle.flash_traits.specs.Budget.{chunks};
ghost use Rattle.sector_log.specs.Storage.{storage_bytes};
ghost use Rattle.sector_image.specs.Room as room;
ghost use Rattle.sector_image.specs.Room.{left_to_copy};
ghost use Rattle.sector_image.specs.Coverage.{IsComparison, is_marked};

use crate::chunks::{CHUNKS, is_covered};
use std::marker::Model;

/// A mark for each chunk that is covered, and the number of chunks without one.
#[derive(Debug, Drop)]
pub(crate) struct Coverage {
    marks: [bool; CHUNKS],
    uncovered: usize,
}

impl Model for Coverage {
    ghost use Rattle.std.specs.Prelude.{◌≡◌, List, Bool};
    ghost use Rattle.sector_image.specs.Coverage.{unmarked};

    ghost Value = { List Bool };

    ghost view = { λ coverage. coverage.marks };

    ghost invariant = { λ coverage. coverage.uncovered ≡ unmarked coverage.marks };
}

impl Coverage {
    /// Every chunk is covered.
    pub(crate) fn whole() -> Coverage
        ensures { (chunk : ℕ) → chunk < chunks → is_marked result chunk ≡ true }
    {
        Coverage {
            marks: [true; CHUNKS],
            uncovered: 0,
        }
    }

    /// The comparison of two lists from scratch.
    pub(crate) fn of(whole: &[u8], upper: &[u8]) -> Coverage
        requires whole { length whole.now ≡ storage_bytes }
        requires upper { length upper.now ≡ storage_bytes }
        ensures { IsComparison whole.now upper.now result }
    {
        let mut coverage = Coverage::whole();
        coverage.compare(whole, upper, 0, CHUNKS);
        coverage
    }

    /// Compares the chunks anew from one on up to another, which isn't one of them.
    pub(crate) fn compare(&mut self, whole: &[u8], upper: &[u8], from: usize, to: usize)
        requires range { from ≤ to }
        requires chunks { to ≤ chunks }
        requires whole { length whole.now ≡ storage_bytes }
        requires upper { length upper.now ≡ storage_bytes }
        ensures inside { (chunk : ℕ) → from ≤ chunk → chunk < to
            → is_marked self.new chunk ≡ room.is_covered whole.now upper.now chunk }
        ensures outside { (chunk : ℕ) → (chunk < from) ⊎ (to ≤ chunk)
            → is_marked self.new chunk ≡ is_marked self.old chunk }
    {
        for chunk in from..to {
            self.mark(chunk, is_covered(whole, upper, chunk));
        }
    }

    /// Sets or takes back the mark of a chunk.
    pub(crate) fn mark(&mut self, chunk: usize, covered: bool)
        requires { chunk < chunks }
        ensures here { is_marked self.new chunk ≡ covered }
        ensures others { (other : ℕ) → other ≢ chunk
            → is_marked self.new other ≡ is_marked self.old other }
    {
        let before = self.marks[chunk];
        self.marks[chunk] = covered;
        self.uncovered = self.uncovered + before as usize - covered as usize;
    }

    /// The first chunk without a mark.
    pub(crate) fn first_left(&self) -> Option<usize>
        ensures position { result ≡ position not self.now }
        ensures size { length self.now ≡ chunks }
    {
        self.marks.iter().position(|mark| !*mark)
    }

    /// How many chunks are to be copied, beside that of a completable torn last entry.
    pub(crate) fn count_left(&self, finishing: Option<usize>) -> usize
        ensures count { (whole upper : List ℕ) → IsComparison whole upper self.now
            → result ≡ left_to_copy whole upper finishing }
        ensures most { result ≤ chunks }
    {
        match finishing {
            Some(chunk) => self.uncovered - self.is_unmarked(chunk) as usize,
            None => self.uncovered,
        }
    }

    /// Whether this is a chunk without a mark.
    fn is_unmarked(&self, chunk: usize) -> bool
        ensures { IsTrue result ↔ ((chunk < chunks) × (is_marked self.now chunk ≡ false)) }
    {
        chunk < CHUNKS && !self.marks[chunk]
    }
}
