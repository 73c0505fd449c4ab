//! A `format`: a fresh image is made.
ghost use Rattle.std.specs.Prelude.{◌≡◌, [], IfErr, IsOk};
ghost use Rattle.flash_traits.specs.Words.{IsSectorSize};
ghost use Rattle.storage_cli.specs.Steps.Stops.{IsAttached, IsFormatStop, StopsByCause};
ghost use Rattle.storage_cli.specs.Serving.{LeavesLink};
ghost use Rattle.storage_cli.specs.Fresh.{IsFreshImage};

use crate::stop::Stop;
use flash_traits::{Board, Mark, Region};
use sector_log::begin_sector;

/// Makes a fresh image with sectors of that size.
pub(crate) fn format<B: Board>(board: &mut B, image: &str, sector_bytes: u32) -> Result<(), Stop>
    requires { IsSectorSize sector_bytes }
    ensures fresh { IsOk result → B.tells board.new
        → IsFreshImage sector_bytes (B.words board.new) }
    ensures size { IsAttached result → B.sector_bytes board.new ≡ sector_bytes }
    ensures no_link { IsAttached result → B.has_lists board.new [] [] }
    ensures link { LeavesLink (B.moment board.old) (B.moment board.new) }
    ensures stops { IfErr result IsFormatStop }
    ensures cause { StopsByCause (B.faults board.old) (B.faults board.new) result }
{
    if board.attach(image, 0, Some(sector_bytes)).is_err() {
        return Err(Stop::Attach);
    }
    begin_sector(board, Region::S1, Mark::Available)?;
    begin_sector(board, Region::S0, Mark::InUse)?;
    Ok(())
}
