//! A source in memory that never fails.
ghost use Rattle.std.specs.Prelude.{◌≡◌};

use crate::input::Input;
use crate::{Failed, Source};
use std::alloc::{AllocError, Global};

/// A source in memory that never fails. It tells the bytes that it has given and those that are
/// left.
#[derive(Drop)]
pub struct SureSource {
    input: Input,
}

impl SureSource {
    ghost use Rattle.std.specs.Prelude.{IfOk, []};

    /// A source of these bytes.
    pub fn new(alloc: Global, bytes: &[u8]) -> Result<SureSource, AllocError>
        ensures told { IfOk result (λ source. ⟦<SureSource as Source>⟧.tells_given source ×
            ⟦<SureSource as Source>⟧.tells_rest source) }
        ensures given { IfOk result (λ source. ⟦<SureSource as Source>⟧.given source ≡ []) }
        ensures rest { IfOk result (λ source. ⟦<SureSource as Source>⟧.rest source ≡ bytes.now) }
        ensures faults { IfOk result (λ source. ⟦<SureSource as Source>⟧.faults source ≡ 0) }
    {
        Ok(SureSource {
            input: Input {
                bytes: bytes.to_vec(alloc)?,
                next: 0,
            },
        })
    }

    /// Its count of faults is never other than 0.
    pub fn never_fails(&self)
        ensures { ⟦<SureSource as Source>⟧.faults self.now ≡ 0 }
    {}
}

impl Source for SureSource {
    ghost use Rattle.std.specs.Prelude.{◌≡◌, ◌≢◌, ◌↔◌, ◌≤◌, ◌++◌, [], min, length, take, IfOk, IsOk, IsErr, IsTrue, MatchResult, Ok, Err};
    ghost use Rattle.flash_traits.specs.Causes.{HasOneCause};
    ghost use Rattle.flash_board.specs.Streams.{given_of, rest_of};

    ghost tells_given = { λ _. Unit {0} };

    ghost given = { λ s. given_of s.input };

    ghost tells_rest = { λ _. Unit {0} };

    ghost rest = { λ s. rest_of s.input };

    ghost faults = { λ _. 0 };

    fn read(&mut self, into: &mut [u8]) -> Result<usize, Failed>
        ensures within { IfOk result (λ count. count ≤ length into.new) }
        ensures told_given { ⟦<SureSource as Source>⟧.tells_given self.new →
            ⟦<SureSource as Source>⟧.tells_given self.old }
        ensures told_rest { ⟦<SureSource as Source>⟧.tells_rest self.new →
            ⟦<SureSource as Source>⟧.tells_rest self.old }
        ensures given { ⟦<SureSource as Source>⟧.tells_given self.new → MatchResult result (λ count.
            ⟦<SureSource as Source>⟧.given self.new
            ≡ ⟦<SureSource as Source>⟧.given self.old ++ take count into.new) (λ _.
            ⟦<SureSource as Source>⟧.given self.new ≡ ⟦<SureSource as Source>⟧.given self.old) }
        ensures rest { ⟦<SureSource as Source>⟧.tells_rest self.new → MatchResult result (λ count.
            ⟦<SureSource as Source>⟧.rest self.old
            ≡ take count into.new ++ ⟦<SureSource as Source>⟧.rest self.new) (λ _.
            ⟦<SureSource as Source>⟧.rest self.new ≡ ⟦<SureSource as Source>⟧.rest self.old) }
        ensures end { ⟦<SureSource as Source>⟧.tells_rest self.new → IfOk result (λ count. count
            ≡ 0 → length into.new ≢ 0 → ⟦<SureSource as Source>⟧.rest self.old ≡ []) }
        ensures cause { HasOneCause (⟦<SureSource as Source>⟧.faults self.old)
            (⟦<SureSource as Source>⟧.faults self.new) result }
        ensures sure { IsOk result }
        ensures count { IfOk result (λ count. count
            ≡ min (length into.old) (length (⟦<SureSource as Source>⟧.rest self.old))) }
    {
        Ok(self.input.read(into))
    }
}
