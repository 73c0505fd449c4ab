//! A sink in memory that never fails.
ghost use Rattle.std.specs.Prelude.{◌≡◌};

use crate::output::Output;
use crate::{Failed, Sink};
use std::alloc::{AllocError, Global};

/// A sink in memory that never fails. From the first piece on that finds no room it keeps nothing
/// more and tells nothing, and works on as before.
#[derive(Drop)]
pub struct SureSink {
    output: Output,
}

impl SureSink {
    ghost use Rattle.std.specs.Prelude.{IfOk, []};
    ghost use Rattle.flash_board.specs.OfSureSink.{capacity_of};

    /// A sink with room for so many bytes.
    pub fn new(alloc: Global, room: u32) -> Result<SureSink, AllocError>
        ensures told { IfOk result (λ sink. ⟦<SureSink as Sink>⟧.tells_written sink) }
        ensures written { IfOk result (λ sink. ⟦<SureSink as Sink>⟧.written sink ≡ []) }
        ensures room { IfOk result (λ sink. capacity_of sink ≡ room) }
        ensures faults { IfOk result (λ sink. ⟦<SureSink as Sink>⟧.faults sink ≡ 0) }
    {
        let kept = Vec::with_capacity(alloc, room as usize)?;
        Ok(SureSink {
            output: Output {
                kept,
                room: room as usize,
                told: true,
            },
        })
    }

    /// What was written, as far as it was kept.
    pub fn bytes(&self) -> &[u8]
        ensures { result.now ≡ ⟦<SureSink as Sink>⟧.written self.now }
    {
        self.output.kept.as_slice()
    }

    /// Its count of faults is never other than 0.
    pub fn never_fails(&self)
        ensures { ⟦<SureSink as Sink>⟧.faults self.now ≡ 0 }
    {}
}

impl Sink for SureSink {
    ghost use Rattle.std.specs.Prelude.{◌≡◌, ◌↔◌, ◌≤◌, ◌<◌, ◌+◌, ◌++◌, ℕ, true, length, take, IsOk, IsErr, IsTrue, OnOk, OnErr, MatchResult, Ok, Err};
    ghost use Rattle.flash_traits.specs.Causes.{HasOneCause};
    ghost use Rattle.flash_board.specs.OfSureSink.{capacity_of};

    ghost tells_written = { λ s. s.output.told ≡ true };

    ghost written = { λ s. s.output.kept.items };

    ghost faults = { λ _. 0 };

    fn write_all(&mut self, from: &[u8]) -> Result<(), Failed>
        ensures told { ⟦<SureSink as Sink>⟧.tells_written self.new →
            ⟦<SureSink as Sink>⟧.tells_written self.old }
        ensures written { ⟦<SureSink as Sink>⟧.tells_written self.new → MatchResult result (λ _.
            ⟦<SureSink as Sink>⟧.written self.new
            ≡ ⟦<SureSink as Sink>⟧.written self.old ++ from.now)
            (λ _. (count : ℕ) × (⟦<SureSink as Sink>⟧.written self.new
            ≡ ⟦<SureSink as Sink>⟧.written self.old ++ take count from.now)) }
        ensures cause { HasOneCause (⟦<SureSink as Sink>⟧.faults self.old)
            (⟦<SureSink as Sink>⟧.faults self.new) result }
        ensures sure { IsOk result }
        ensures goes_on { ⟦<SureSink as Sink>⟧.tells_written self.old →
            length (⟦<SureSink as Sink>⟧.written self.old) + length from.now
            ≤ capacity_of self.old →
            ⟦<SureSink as Sink>⟧.tells_written self.new }
        ensures stops { (⟦<SureSink as Sink>⟧.tells_written self.new → ⊥) →
            ⟦<SureSink as Sink>⟧.written self.new ≡ ⟦<SureSink as Sink>⟧.written self.old }
        ensures ends { OnOk result (capacity_of self.old
            < length (⟦<SureSink as Sink>⟧.written self.old) + length from.now →
            ⟦<SureSink as Sink>⟧.tells_written self.new → ⊥) }
        ensures room { capacity_of self.new ≡ capacity_of self.old }
    {
        self.output.write(from);
        Ok(())
    }
}
