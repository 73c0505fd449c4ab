//! Single halfwords, read and programmed, with the kind of fault that a failed call is.
ghost use Rattle.std.specs.Prelude.{◌≡◌, ◌<◌, IfOk, slice_index};
ghost use Rattle.flash_traits.specs.declared.board.Fault.TheVariants.{Read, Flash};
ghost use Rattle.flash_traits.specs.Words.{halfwords_in, region_length, IsSectorSize, Programs, ProgramMayLeave};
ghost use Rattle.flash_traits.specs.Losses.{ByResult, after_program};
ghost use Rattle.flash_traits.specs.Counts.{raised_by};
ghost use Rattle.flash_traits.specs.Calls.{Changes, ErasesNothing, OnlyReads};
ghost use Rattle.flash_traits.specs.Causes.{FailsBy};

use crate::{Board, Fault, Region};

/// The halfword at an offset.
pub fn read_halfword<B: Board>(board: &mut B, region: Region, at: u32) -> Result<u16, Fault>
    requires attached { IsSectorSize (B.sector_bytes board.old) }
    requires inside { at < region_length (B.sector_bytes board.old) region }
    ensures word { IfOk result (λ word. B.tells board.new →
        word ≡ slice_index (halfwords_in (B.words board.old) region) at) }
    ensures reads { OnlyReads B.Board board.old board.new }
    ensures fails { FailsBy Read (B.faults board.old) (B.faults board.new) result }
{
    match board.read(region, at) {
        Ok(word) => Ok(word),
        Err(_) => Err(Fault::Read),
    }
}

/// Clears the bits of the halfword at an offset that the word lacks.
pub fn program_halfword<B: Board>(
    board: &mut B,
    region: Region,
    at: u32,
    word: u16,
) -> Result<(), Fault>
    requires attached { IsSectorSize (B.sector_bytes board.old) }
    requires inside { at < region_length (B.sector_bytes board.old) region }
    ensures changes { Changes B.Board board.old board.new (ProgramMayLeave region at word)
        (ByResult result (Programs region at word) (ProgramMayLeave region at word)) }
    ensures moment { B.moment board.new ≡ after_program (B.moment board.old) }
    ensures erases { ErasesNothing B.Board board.old board.new }
    ensures programs { (B.moment board.new).programs ≡ raised_by 1 (B.moment board.old).programs }
    ensures fails { FailsBy Flash (B.faults board.old) (B.faults board.new) result }
{
    match board.program(region, at, word) {
        Ok(()) => Ok(()),
        Err(_) => Err(Fault::Flash),
    }
}
