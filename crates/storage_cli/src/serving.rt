//! A `serve`: the image is attached, opened, served and closed.
ghost use Rattle.std.specs.Prelude.{◌≡◌, ◌⊎◌, List, ℕ, [], IfOk, IfErr, OnOk, OnErr, ⊤};
ghost use Rattle.flash_traits.specs.Words.{IsSectorSize, HasShape};
ghost use Rattle.flash_traits.specs.Losses.{Received, SentFrame, Outcome};
ghost use Rattle.flash_traits.specs.Budget.{budget_of};
ghost use Rattle.flash_traits.specs.Calls.{Passes};
ghost use Rattle.sector_image.specs.FirstBad.{Place, FirstBad};
ghost use Rattle.sector_image.specs.Stands.{Stands, IsUsedUp};
ghost use Rattle.block_store.specs.Refusals.{IsWorn};
ghost use Rattle.dirty_lines.specs.Lines.{Lines};
ghost use Rattle.dirty_lines.specs.Losses.{IsWornForNext};
ghost use Rattle.vehicle_node.specs.Standing.{Fits, IsAloneUnlessArmed, StandsForRun};
ghost use Rattle.storage_cli.specs.Serving.{HasToVoid, IsLeftAlone};
ghost use Rattle.storage_cli.specs.Steps.Stops.{IsAttached, IsDone, IsServeStop, IsEventStop, IsFirst, OnForeign, OnMemory, OnWorn, StopsEarly, StopsWorn, StopsByCause};
ghost use Rattle.storage_cli.specs.Steps.Guard.{WearsSince, WearsFrom};
ghost use Rattle.storage_cli.specs.Steps.Progress.{IsSafe, FinishesEvents, CompletesServe, IsSafeRun, WasArmedSince};

use crate::stop::{Served, Stop};
use flash_traits::{Board, DATAGRAM_BYTES};
use std::alloc::Global;
use vehicle_node::{Node, Turn};

/// Finishes events until the end comes, at most so many. The number is that of the events before
/// the end.
fn serve_events<B: Board>(node: &mut Node, board: &mut B, turns: u32) -> Result<Option<u32>, Stop>
    requires fits { Fits B.Board board.old node.old }
    ensures fits { OnOk result (Fits B.Board board.new node.new) }
    ensures finished { IfOk result (λ end.
        FinishesEvents B.Board node.old.budget node.old board.old node.new board.new turns end) }
    ensures losses { OnErr result ((b : List ℕ) (e : List Received) (f : List SentFrame) (m : ℕ)
        → (B.tells board.old → StandsForRun node.old b e f m)
        → Passes B.Board board.old board.new (IsSafe node.old.budget b e f)
        (IsSafe node.old.budget b e f)) }
    ensures told { B.tells board.new → B.tells board.old }
    ensures worn { IfErr result (λ stop.
        OnWorn stop ((bytes : _) × IsWorn B.Board board.new bytes)) }
    ensures alone { IsAloneUnlessArmed node.old → OnOk result (IsAloneUnlessArmed node.new) }
    ensures worn_next { IsAloneUnlessArmed node.old → IfErr result (λ stop.
        OnWorn stop (((lines : Lines) × IsWornForNext B.Board board.new lines)
        ⊎ WasArmedSince B.Board node.old board.old board.new)) }
    ensures worn_lines { IfErr result (λ stop.
        OnWorn stop (WearsSince B.Board node.old board.old board.new)) }
    ensures budget { OnOk result (node.new.budget ≡ node.old.budget) }
    ensures geometry { B.sector_bytes board.new ≡ B.sector_bytes board.old }
    ensures stops { IfErr result IsEventStop }
    ensures cause { StopsByCause (B.faults board.old) (B.faults board.new) result }
{
    let mut buffer = [0; DATAGRAM_BYTES];
    for events in 0..turns {
        let turn = node.event(board, &mut buffer)?;
        match turn {
            Turn::End => return Ok(Some(events)),
            Turn::More => {}
        }
    }
    Ok(None)
}

/// Opens the image, serves it and closes it.
fn serve_image<B: Board>(alloc: Global, board: &mut B, turns: u32) -> Result<Served, Stop>
    requires attached { IsSectorSize (B.sector_bytes board.old) }
    ensures losses { (b : List ℕ) → (B.tells board.old → Stands (B.words board.old) b)
        → Passes B.Board board.old board.new
        (IsSafe (budget_of (B.sector_bytes board.old)) b [] [])
        (IsSafe (budget_of (B.sector_bytes board.old)) b [] []) }
    ensures completes { IsDone result
        → CompletesServe B.Board (budget_of (B.sector_bytes board.old)) (B.words board.old)
        (B.has_lists board.old [] []) board.new turns result }
    ensures told { B.tells board.new → B.tells board.old }
    ensures foreign { B.tells board.new → IfErr result (IsFirst (B.words board.old)) }
    ensures foreign_where { B.tells board.new → (place : Place) → FirstBad (B.words board.old) place
        → StopsEarly result }
    ensures worn { IfErr result (λ stop.
        OnWorn stop ((bytes : _) × IsWorn B.Board board.new bytes)) }
    ensures worn_only { IfErr result (λ stop.
        OnWorn stop (B.has_lists board.old [] []
        → HasToVoid B.Board (B.words board.old) board.new)) }
    ensures worn_lines { IfErr result (λ stop.
        OnWorn stop (WearsFrom B.Board (budget_of (B.sector_bytes board.old)) (B.words board.old)
        (B.has_lists board.old [] []) board.new)) }
    ensures foreign_idle { IfErr result (λ stop.
        OnForeign stop (B.moment board.new ≡ B.moment board.old)) }
    ensures left_alone { B.tells board.new → (place : Place) → FirstBad (B.words board.old) place
        → IsLeftAlone B.Board board.old board.new }
    ensures worn_where { B.tells board.new → IsUsedUp (B.words board.old) → StopsWorn result }
    ensures memory { IfErr result (λ stop. OnMemory stop (board.new ≡ board.old)) }
    ensures geometry { B.sector_bytes board.new ≡ B.sector_bytes board.old }
    ensures stops { IfErr result IsServeStop }
    ensures cause { StopsByCause (B.faults board.old) (B.faults board.new) result }
{
    let mut node = Node::open(alloc, board)?;
    let end = serve_events(&mut node, board, turns)?;
    let frames = node.frames();
    let lines = node.issued();
    node.close(board)?;
    match end {
        Some(events) => Ok(Served {
            events,
            frames,
            lines,
        }),
        None => Err(Stop::Turns(turns)),
    }
}

/// Attaches an image and serves it until the end comes, or so many events are finished.
pub(crate) fn serve<B: Board>(
    alloc: Global,
    board: &mut B,
    image: &str,
    port: u16,
    turns: u32,
) -> Result<Served, Stop>
    ensures losses { IsAttached result
        → (b : List ℕ) → (B.tells board.old → Stands (B.words board.old) b)
        → (o : Outcome) → B.left board.new (B.moment board.old) o
        → IsSafeRun (budget_of (B.sector_bytes board.new)) b o }
    ensures completes { IsDone result
        → CompletesServe B.Board (budget_of (B.sector_bytes board.new))
        (B.words board.old) ⊤ board.new
        turns result }
    ensures foreign { B.tells board.new → IfErr result (IsFirst (B.words board.old)) }
    ensures foreign_where { B.tells board.new → (place : Place) → FirstBad (B.words board.old) place
        → StopsEarly result }
    ensures worn { IfErr result (λ stop.
        OnWorn stop ((bytes : _) × IsWorn B.Board board.new bytes)) }
    ensures worn_only { IfErr result (λ stop.
        OnWorn stop (HasToVoid B.Board (B.words board.old) board.new)) }
    ensures worn_lines { IfErr result (λ stop.
        OnWorn stop (WearsFrom B.Board (budget_of (B.sector_bytes board.new)) (B.words board.old) ⊤
        board.new)) }
    ensures foreign_idle { IfErr result (λ stop.
        OnForeign stop (B.moment board.new ≡ B.moment board.old)) }
    ensures left_alone { IsAttached result → B.tells board.new
        → (place : Place) → FirstBad (B.words board.old) place
        → IsLeftAlone B.Board board.old board.new }
    ensures worn_where { B.tells board.new → IsUsedUp (B.words board.old) → StopsWorn result }
    ensures memory { IfErr result (λ stop.
        OnMemory stop (B.moment board.new ≡ B.moment board.old)) }
    ensures geometry { IsAttached result → IsSectorSize (B.sector_bytes board.new) }
    ensures shape { IsAttached result → B.tells board.new
        → HasShape (B.sector_bytes board.new) (B.words board.old) }
    ensures stops { IfErr result IsServeStop }
    ensures cause { StopsByCause (B.faults board.old) (B.faults board.new) result }
{
    if board.attach(image, port, None).is_err() {
        return Err(Stop::Attach);
    }
    serve_image(alloc, board, turns)
}
