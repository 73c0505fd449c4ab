//! A sink in memory whose calls with certain numbers fail.
ghost use Rattle.std.specs.Prelude.{◌≡◌};

use crate::counts::fails_now;
use crate::output::Output;
use crate::{Failed, Sink};
use std::alloc::{AllocError, Global};

/// A sink in memory whose calls with certain numbers fail. From the first piece on that finds no
/// room it keeps nothing more and tells nothing, and works on as before.
#[derive(Drop)]
pub struct MemSink {
    output: Output,
    fails: Vec<u32>,
    number: u64,
    faults: u64,
}

impl MemSink {
    ghost use Rattle.std.specs.Prelude.{IfOk, []};
    ghost use Rattle.flash_board.specs.OfMemSink.{failing_calls, next_call, capacity_of};

    /// A sink with room for so many bytes. The call with the number k, counted from 0, fails where
    /// k is in `fails`, and writes nothing.
    pub fn new(alloc: Global, room: u32, fails: &[u32]) -> Result<MemSink, AllocError>
        ensures told { IfOk result (λ sink. ⟦<MemSink as Sink>⟧.tells_written sink) }
        ensures written { IfOk result (λ sink. ⟦<MemSink as Sink>⟧.written sink ≡ []) }
        ensures room { IfOk result (λ sink. capacity_of sink ≡ room) }
        ensures faults { IfOk result (λ sink. ⟦<MemSink as Sink>⟧.faults sink ≡ 0) }
        ensures fails { IfOk result (λ sink. (failing_calls sink ≡ fails.now) × (next_call sink
            ≡ 0)) }
    {
        let kept = Vec::with_capacity(alloc, room as usize)?;
        Ok(MemSink {
            output: Output {
                kept,
                room: room as usize,
                told: true,
            },
            fails: fails.to_vec(alloc)?,
            number: 0,
            faults: 0,
        })
    }

    /// What was written, as far as it was kept.
    pub fn bytes(&self) -> &[u8]
        ensures { result.now ≡ ⟦<MemSink as Sink>⟧.written self.now }
    {
        self.output.kept.as_slice()
    }
}

impl Sink for MemSink {
    ghost use Rattle.std.specs.Prelude.{◌≡◌, ◌↔◌, ◌≤◌, ◌<◌, ◌+◌, ◌++◌, ℕ, true, length, take, IsOk, IsErr, IsTrue, OnOk, OnErr, MatchResult, Ok, Err};
    ghost use Rattle.flash_traits.specs.Causes.{HasOneCause};
    ghost use Rattle.flash_board.specs.OfMemSink.{failing_calls, next_call, capacity_of};
    ghost use Rattle.flash_board.specs.Numbers.{is_among};
    ghost use Rattle.flash_traits.specs.Counts.{raised};

    ghost tells_written = { λ s. s.output.told ≡ true };

    ghost written = { λ s. s.output.kept.items };

    ghost faults = { λ s. s.faults };

    fn write_all(&mut self, from: &[u8]) -> Result<(), Failed>
        ensures told { ⟦<MemSink as Sink>⟧.tells_written self.new →
            ⟦<MemSink as Sink>⟧.tells_written self.old }
        ensures written { ⟦<MemSink as Sink>⟧.tells_written self.new → MatchResult result (λ _.
            ⟦<MemSink as Sink>⟧.written self.new ≡ ⟦<MemSink as Sink>⟧.written self.old ++ from.now)
            (λ _. (count : ℕ) × (⟦<MemSink as Sink>⟧.written self.new
            ≡ ⟦<MemSink as Sink>⟧.written self.old ++ take count from.now)) }
        ensures cause { HasOneCause (⟦<MemSink as Sink>⟧.faults self.old)
            (⟦<MemSink as Sink>⟧.faults self.new) result }
        ensures fails { IsErr result ↔ IsTrue (is_among (failing_calls self.old) (next_call
            self.old)) }
        ensures numbered { (failing_calls self.new ≡ failing_calls self.old) × (next_call self.new
            ≡ raised (next_call self.old)) }
        ensures leaves { OnErr result (⟦<MemSink as Sink>⟧.written self.new
            ≡ ⟦<MemSink as Sink>⟧.written self.old) }
        ensures goes_on { ⟦<MemSink as Sink>⟧.tells_written self.old →
            length (⟦<MemSink as Sink>⟧.written self.old) + length from.now ≤ capacity_of self.old →
            ⟦<MemSink as Sink>⟧.tells_written self.new }
        ensures stops { (⟦<MemSink as Sink>⟧.tells_written self.new → ⊥) →
            ⟦<MemSink as Sink>⟧.written self.new ≡ ⟦<MemSink as Sink>⟧.written self.old }
        ensures tells_on { OnErr result (⟦<MemSink as Sink>⟧.tells_written self.old →
            ⟦<MemSink as Sink>⟧.tells_written self.new) }
        ensures ends { OnOk result (capacity_of self.old
            < length (⟦<MemSink as Sink>⟧.written self.old) + length from.now →
            ⟦<MemSink as Sink>⟧.tells_written self.new → ⊥) }
        ensures room { capacity_of self.new ≡ capacity_of self.old }
    {
        if fails_now(&self.fails, &mut self.number) {
            self.faults = self.faults.saturating_add(1);
            return Err(Failed);
        }
        self.output.write(from);
        Ok(())
    }
}
