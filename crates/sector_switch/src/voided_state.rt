//! The image in one sector, with the other one void until it is erased.
ghost use Rattle.std.specs.Prelude.{◌≡◌, ◌≤◌, IfOk, IfErr};
ghost use Rattle.flash_traits.specs.declared.board.Fault.TheVariants.{Flash};
ghost use Rattle.flash_traits.specs.Losses.{after_erase};
ghost use Rattle.flash_traits.specs.Calls.{Changes};
ghost use Rattle.flash_traits.specs.Causes.{HasCause};
ghost use Rattle.flash_traits.specs.Counts.{raised_by};
ghost use Rattle.sector_image.specs.Images.{Bytes};
ghost use Rattle.sector_image.specs.Losses.{KeepsBytes};
ghost use Rattle.sector_image.specs.Fits.{FitsAlone, FitsVoided};
ghost use Rattle.sector_switch.specs.States.{FitsErased, alone_from};

use crate::{Alone, Erased, Kept};
use flash_traits::{Board, Fault};
use guard_row::second_sector;
use std::marker::Model;

/// One sector is in use and has all bytes, and the words of the other mean nothing.
#[derive(Debug, Drop)]
pub struct Voided {
    pub(crate) kept: Kept,
}

impl Model for Voided {
    ghost use Rattle.sector_image.specs.declared.kept.Kept.{Kept};

    ghost Value = { Kept };

    ghost view = { λ state. state.kept };
}

impl Voided {
    /// Erases the void sector. A loss inside leaves the bytes of before.
    pub fn erase<B: Board>(self, board: &mut B) -> Result<Erased, Fault>
        requires fits { (images : Bytes) × FitsVoided B.Board board.old self images }
        ensures fits { IfOk result (λ erased. (images : Bytes) →
            FitsVoided B.Board board.old self images → FitsErased B.Board board.new erased images) }
        ensures kept { IfOk result (λ erased. erased ≡ self) }
        ensures changes { Changes B.Board board.old board.new (KeepsBytes 0) (KeepsBytes 0) }
        ensures moment { B.moment board.new ≡ after_erase (B.moment board.old) }
        ensures cause { HasCause Flash (B.faults board.old) (B.faults board.new) result }
        ensures kind { IfErr result (λ kind. kind ≡ Flash) }
    {
        let kept = erase_void(board, self.kept)?;
        Ok(Erased { kept })
    }

    /// Erases the void sector and makes it available, beside the other one as home. A loss inside
    /// leaves the bytes of before.
    pub fn settle<B: Board>(self, board: &mut B) -> Result<Alone, Fault>
        requires fits { (images : Bytes) × FitsVoided B.Board board.old self images }
        ensures fits { IfOk result (λ alone. (images : Bytes) →
            FitsVoided B.Board board.old self images → FitsAlone B.Board board.new alone images) }
        ensures kept { IfOk result (λ alone. alone ≡ alone_from self) }
        ensures changes { Changes B.Board board.old board.new (KeepsBytes 1) (KeepsBytes 1) }
        ensures erases_once { (B.moment board.new).erases
            ≤ raised_by 1 (B.moment board.old).erases }
        ensures programs { (B.moment board.new).programs ≤ raised_by 3
            (B.moment board.old).programs }
        ensures cause { HasCause Flash (B.faults board.old) (B.faults board.new) result }
        ensures kind { IfErr result (λ kind. kind ≡ Flash) }
    {
        let erased = self.erase(board)?;
        let alone = erased.open(board)?;
        Ok(alone)
    }
}

/// Erases the void sector.
fn erase_void<B: Board>(board: &mut B, kept: Kept) -> Result<Kept, Fault>
    requires fits { (images : Bytes) × FitsVoided B.Board board.old kept images }
    ensures fits { IfOk result (λ new. (images : Bytes) → FitsVoided B.Board board.old kept images →
        FitsErased B.Board board.new new images) }
    ensures kept { IfOk result (λ new. new ≡ kept) }
    ensures changes { Changes B.Board board.old board.new (KeepsBytes 0) (KeepsBytes 0) }
    ensures moment { B.moment board.new ≡ after_erase (B.moment board.old) }
    ensures cause { HasCause Flash (B.faults board.old) (B.faults board.new) result }
    ensures kind { IfErr result (λ kind. kind ≡ Flash) }
{
    match board.erase(second_sector(kept.guard)) {
        Ok(()) => Ok(kept),
        Err(_) => Err(Fault::Flash),
    }
}
