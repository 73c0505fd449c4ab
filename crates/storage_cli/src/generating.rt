//! A `gen`: a generated session is run in memory.
ghost use Rattle.std.specs.Prelude.{◌≡◌, ◌≤◌, IfOk, IfErr};
ghost use Rattle.storage_cli.specs.Sessions.{WearsOut};
ghost use Rattle.storage_cli.specs.Steps.Sessions.{IsSessionStop, IsSummary};
ghost use Rattle.storage_cli.specs.Steps.Stops.{OnWorn};

use crate::serving::serve;
use crate::stop::{Stop, Summary};
use sector_image::{Images, one_of_both, survey};
use session_boards::{CountBoard, Session, session_ends};
use sha2::{Digest, Sha256};
use std::alloc::Global;
use std::marker::Brand;

/// More turns than any session has.
const TURNS: u32 = u32::MAX;

/// Runs the session of a board, and takes the digest of the storage bytes after its close.
fn generate_on<N: Session>(alloc: Global, rounds: u16) -> Result<Summary, Stop>
    requires range { (1 ≤ rounds) × (rounds ≤ 1000) }
    requires session { rounds ≡ N.rounds }
    ensures summary { IfOk result (IsSummary rounds) }
    ensures stops { IfErr result IsSessionStop }
    ensures worn { IfErr result (λ stop. OnWorn stop (WearsOut rounds)) }
{
    session_ends();
    one_of_both();
    let mut board = CountBoard::<N>::new(alloc, rounds)?;
    let mut images = Images::new(alloc)?;
    let served = serve(alloc, &mut board, "", 0, TURNS);
    board.tells_session();
    let served = served?;
    let Ok(_) = survey(&mut board, &mut images) else {
        unreachable!();
    };
    Ok(Summary {
        rounds,
        events: served.events,
        frames: served.frames,
        lines: served.lines,
        digest: Sha256::digest(images.whole()),
    })
}

/// Runs the generated session of so many rounds over a fresh image in memory.
pub(crate) fn generate(alloc: Global, rounds: u16) -> Result<Summary, Stop>
    requires { (1 ≤ rounds) × (rounds ≤ 1000) }
    ensures summary { IfOk result (IsSummary rounds) }
    ensures stops { IfErr result IsSessionStop }
    ensures worn { IfErr result (λ stop. OnWorn stop (WearsOut rounds)) }
{
    generate_on::<Brand>(alloc, rounds)
}
