//! The image in both sectors, with the other one whole: home is voided, erased and made available.
ghost use Rattle.std.specs.Prelude.{◌≡◌, ◌+◌, ◌<◌, ◌≤◌, IfOk, IfErr, IfSome};
ghost use Rattle.flash_traits.specs.declared.numbers.TheConstants.{GUARD_HALFWORDS};
ghost use Rattle.flash_traits.specs.declared.board.Fault.{Fault};
ghost use Rattle.flash_traits.specs.declared.board.Fault.TheVariants.{Flash};
ghost use Rattle.flash_traits.specs.Calls.{Changes, ErasesNothing};
ghost use Rattle.flash_traits.specs.Causes.{HasCause, counts_after, told_by};
ghost use Rattle.flash_traits.specs.Counts.{raised_by};
ghost use Rattle.sector_image.specs.Images.{Bytes};
ghost use Rattle.sector_image.specs.Losses.{KeepsBytes};
ghost use Rattle.sector_switch.specs.States.{FitsCopied, voided_from, settled_from};
ghost use Rattle.sector_image.specs.Fits.{FitsAlone, FitsVoided};
ghost use Rattle.sector_switch.specs.Refusals.{OnVoidWorn, OnVoidFault, void_fault_in};
ghost use Rattle.sector_switch.specs.Steps.Calls.{OnlyPrograms};

use crate::{Alone, Kept, Voided};
use flash_traits::{Board, Fault, GUARD_HALFWORDS};
use guard_row::step;
use std::marker::Model;

/// The other sector has all bytes: every chunk is covered, and no torn last entry is completable.
#[derive(Debug, Drop)]
pub struct Copied {
    pub(crate) kept: Kept,
}

impl Model for Copied {
    ghost use Rattle.sector_image.specs.declared.kept.Kept.{Kept};

    ghost Value = { Kept };

    ghost view = { λ state. state.kept };
}

/// Why home wasn't voided.
#[derive(Debug, Drop)]
pub enum VoidError {
    /// A program failed.
    Fault(Fault),
    /// The guard row is used up: its count is 8,192. Nothing has changed.
    Worn(Copied),
}

impl From<Fault> for VoidError {
    ghost use Rattle.sector_switch.specs.declared.copied_state.VoidError.TheVariants as errors;

    ghost from_gives = { λ fault e. e ≡ errors.Fault fault };

    fn from(fault: Fault) -> VoidError {
        VoidError::Fault(fault)
    }
}

impl Copied {
    /// Makes home void. A loss inside leaves the bytes of before.
    pub fn void<B: Board>(self, board: &mut B) -> Result<Voided, VoidError>
        requires fits { (images : Bytes) × FitsCopied B.Board board.old self images }
        ensures fits { IfOk result (λ voided. (images : Bytes) →
            FitsCopied B.Board board.old self images → FitsVoided B.Board board.new voided images) }
        ensures kept { IfOk result (λ voided. IfSome self.other
            (λ log. voided ≡ voided_from self log)) }
        ensures worn { IfErr result (λ e. OnVoidWorn e
            (λ copied. (copied ≡ self) × (self.guard ≡ GUARD_HALFWORDS)
            × (board.new ≡ board.old))) }
        ensures used_up { self.guard ≡ GUARD_HALFWORDS → IfOk result (λ _. ⊥) }
        ensures changes { Changes B.Board board.old board.new (KeepsBytes 1) (KeepsBytes 1) }
        ensures erases { ErasesNothing B.Board board.old board.new }
        ensures programs { (B.moment board.new).programs ≤ raised_by 1
            (B.moment board.old).programs }
        ensures fault { IfErr result (λ e. OnVoidFault e (λ kind. kind ≡ Flash)) }
        ensures counts { B.faults board.new
            ≡ counts_after (told_by void_fault_in result) (B.faults board.old) }
    {
        let kept = self.kept;
        if kept.guard as u32 == GUARD_HALFWORDS {
            return Err(VoidError::Worn(self));
        }
        let kept = void_home(board, kept)?;
        Ok(Voided { kept })
    }

    /// Makes home void, erases it and makes it available, beside the other sector as home. A loss
    /// inside leaves the bytes of before.
    pub fn settle<B: Board>(self, board: &mut B) -> Result<Alone, VoidError>
        requires fits { (images : Bytes) × FitsCopied B.Board board.old self images }
        ensures fits { IfOk result (λ alone. (images : Bytes) →
            FitsCopied B.Board board.old self images → FitsAlone B.Board board.new alone images) }
        ensures kept { IfOk result (λ alone. IfSome self.other
            (λ log. alone ≡ settled_from self log)) }
        ensures worn { IfErr result (λ e. OnVoidWorn e (λ copied. (copied ≡ self)
            × (self.guard ≡ GUARD_HALFWORDS) × (board.new ≡ board.old))) }
        ensures used_up { self.guard ≡ GUARD_HALFWORDS → IfOk result (λ _. ⊥) }
        ensures changes { Changes B.Board board.old board.new (KeepsBytes 2) (KeepsBytes 2) }
        ensures erases_once { (B.moment board.new).erases
            ≤ raised_by 1 (B.moment board.old).erases }
        ensures programs { (B.moment board.new).programs ≤ raised_by 4
            (B.moment board.old).programs }
        ensures fault { IfErr result (λ e. OnVoidFault e (λ kind. kind ≡ Flash)) }
        ensures counts { B.faults board.new
            ≡ counts_after (told_by void_fault_in result) (B.faults board.old) }
    {
        let voided = self.void(board)?;
        let alone = voided.settle(board)?;
        Ok(alone)
    }
}

/// Programs the next guard halfword, after which home is void.
fn void_home<B: Board>(board: &mut B, kept: Kept) -> Result<Kept, Fault>
    requires fits { (images : Bytes) × FitsCopied B.Board board.old kept images }
    requires left { kept.guard < GUARD_HALFWORDS }
    ensures fits { IfOk result (λ new. (images : Bytes) → FitsCopied B.Board board.old kept images →
        FitsVoided B.Board board.new new images) }
    ensures kept { IfOk result (λ new. IfSome kept.other (λ log. new ≡ voided_from kept log)) }
    ensures changes { Changes B.Board board.old board.new (KeepsBytes 1) (KeepsBytes 1) }
    ensures only_programs { OnlyPrograms B.Board 1 board.old result board.new }
{
    let Some(log) = kept.other else {
        unreachable!()
    };
    let guard = step(board, kept.guard)?;
    Ok(Kept {
        guard,
        home: log,
        other: None,
        completable: false,
        ..kept
    })
}
