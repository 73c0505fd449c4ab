//! Two programs one after the other, with what a loss between them leaves.
ghost use Rattle.std.specs.Prelude.{◌+◌, ◌<◌, ◌≤◌};
ghost use Rattle.flash_traits.specs.declared.board.Fault.{Fault};
ghost use Rattle.flash_traits.specs.Words.{region_length, IsSectorSize};
ghost use Rattle.flash_traits.specs.Losses.{ByResult};
ghost use Rattle.flash_traits.specs.Counts.{raised_by};
ghost use Rattle.flash_traits.specs.Calls.{Changes, ErasesNothing};
ghost use Rattle.flash_traits.specs.Causes.{HasCause};
ghost use Rattle.flash_traits.specs.Pairs.{ProgramsPair, PairMayLeave};

use crate::{Board, Failed, Region};

/// Programs two neighbouring halfwords, as a sector's header has. A loss inside leaves none, the
/// first or both of them.
pub fn program_pair<B: Board>(
    board: &mut B,
    region: Region,
    at: u32,
    first: u16,
    second: u16,
) -> Result<(), Failed>
    requires attached { IsSectorSize (B.sector_bytes board.old) }
    requires inside { at + 1 < region_length (B.sector_bytes board.old) region }
    ensures changes { Changes B.Board board.old board.new (PairMayLeave region at first second)
        (ByResult result (ProgramsPair region at first second)
        (PairMayLeave region at first second)) }
    ensures programs { (B.moment board.new).programs ≤ raised_by 2 (B.moment board.old).programs }
    ensures erases { ErasesNothing B.Board board.old board.new }
    ensures cause { HasCause Fault.Flash (B.faults board.old) (B.faults board.new) result }
{
    board.program(region, at, first)?;
    board.program(region, at + 1, second)
}
