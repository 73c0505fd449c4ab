//! A source in memory whose calls with certain numbers fail.
ghost use Rattle.std.specs.Prelude.{◌≡◌};

use crate::counts::fails_now;
use crate::input::Input;
use crate::{Failed, Source};
use std::alloc::{AllocError, Global};

/// A source in memory whose calls with certain numbers fail. It tells the bytes that it has given
/// and those that are left.
#[derive(Drop)]
pub struct MemSource {
    input: Input,
    fails: Vec<u32>,
    number: u64,
    faults: u64,
}

impl MemSource {
    ghost use Rattle.std.specs.Prelude.{IfOk, []};
    ghost use Rattle.flash_board.specs.OfMemSource.{failing_calls, next_call};

    /// A source of these bytes. The call with the number k, counted from 0, fails where k is in
    /// `fails`, and gives nothing.
    pub fn new(alloc: Global, bytes: &[u8], fails: &[u32]) -> Result<MemSource, AllocError>
        ensures told { IfOk result (λ source. ⟦<MemSource as Source>⟧.tells_given source ×
            ⟦<MemSource as Source>⟧.tells_rest source) }
        ensures given { IfOk result (λ source. ⟦<MemSource as Source>⟧.given source ≡ []) }
        ensures rest { IfOk result (λ source. ⟦<MemSource as Source>⟧.rest source ≡ bytes.now) }
        ensures faults { IfOk result (λ source. ⟦<MemSource as Source>⟧.faults source ≡ 0) }
        ensures fails { IfOk result (λ source. (failing_calls source ≡ fails.now) ×
            (next_call source ≡ 0)) }
    {
        Ok(MemSource {
            input: Input {
                bytes: bytes.to_vec(alloc)?,
                next: 0,
            },
            fails: fails.to_vec(alloc)?,
            number: 0,
            faults: 0,
        })
    }
}

impl Source for MemSource {
    ghost use Rattle.std.specs.Prelude.{◌≡◌, ◌≢◌, ◌↔◌, ◌≤◌, ◌++◌, [], min, length, take, IfOk, IsOk, IsErr, IsTrue, MatchResult, Ok, Err};
    ghost use Rattle.flash_traits.specs.Causes.{HasOneCause};
    ghost use Rattle.flash_board.specs.Streams.{given_of, rest_of};
    ghost use Rattle.flash_board.specs.Numbers.{is_among};
    ghost use Rattle.flash_traits.specs.Counts.{raised};
    ghost use Rattle.flash_board.specs.OfMemSource.{failing_calls, next_call};

    ghost tells_given = { λ _. Unit {0} };

    ghost given = { λ s. given_of s.input };

    ghost tells_rest = { λ _. Unit {0} };

    ghost rest = { λ s. rest_of s.input };

    ghost faults = { λ s. s.faults };

    fn read(&mut self, into: &mut [u8]) -> Result<usize, Failed>
        ensures within { IfOk result (λ count. count ≤ length into.new) }
        ensures told_given { ⟦<MemSource as Source>⟧.tells_given self.new →
            ⟦<MemSource as Source>⟧.tells_given self.old }
        ensures told_rest { ⟦<MemSource as Source>⟧.tells_rest self.new →
            ⟦<MemSource as Source>⟧.tells_rest self.old }
        ensures given { ⟦<MemSource as Source>⟧.tells_given self.new → MatchResult result (λ count.
            ⟦<MemSource as Source>⟧.given self.new
            ≡ ⟦<MemSource as Source>⟧.given self.old ++ take count into.new) (λ _.
            ⟦<MemSource as Source>⟧.given self.new ≡ ⟦<MemSource as Source>⟧.given self.old) }
        ensures rest { ⟦<MemSource as Source>⟧.tells_rest self.new → MatchResult result (λ count.
            ⟦<MemSource as Source>⟧.rest self.old
            ≡ take count into.new ++ ⟦<MemSource as Source>⟧.rest self.new) (λ _.
            ⟦<MemSource as Source>⟧.rest self.new ≡ ⟦<MemSource as Source>⟧.rest self.old) }
        ensures end { ⟦<MemSource as Source>⟧.tells_rest self.new → IfOk result (λ count. count
            ≡ 0 → length into.new ≢ 0 → ⟦<MemSource as Source>⟧.rest self.old ≡ []) }
        ensures cause { HasOneCause (⟦<MemSource as Source>⟧.faults self.old)
            (⟦<MemSource as Source>⟧.faults self.new) result }
        ensures fails { IsErr result ↔ IsTrue (is_among (failing_calls self.old) (next_call
            self.old)) }
        ensures numbered { (failing_calls self.new ≡ failing_calls self.old) × (next_call self.new
            ≡ raised (next_call self.old)) }
        ensures count { IfOk result (λ count. count
            ≡ min (length into.old) (length (⟦<MemSource as Source>⟧.rest self.old))) }
    {
        if fails_now(&self.fails, &mut self.number) {
            self.faults = self.faults.saturating_add(1);
            return Err(Failed);
        }
        Ok(self.input.read(into))
    }
}
