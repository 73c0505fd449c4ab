//! A `replay`: a script is run over a copy of the image in memory.
ghost use Rattle.std.specs.Prelude.{◌≡◌, ◌++◌, ◌⊎◌, List, ℕ, length, IfOk, IfErr, OnOk};
ghost use Rattle.flash_traits.specs.Words.{IsSectorSize};
ghost use Rattle.flash_traits.specs.Budget.{budget_of};
ghost use Rattle.flash_traits.specs.Causes.{Rose};
ghost use Rattle.flash_traits.specs.Calls.{OnlyReads};
ghost use Rattle.sector_image.specs.FirstBad.{Place, FirstBad};
ghost use Rattle.sector_image.specs.Stands.{Stands};
ghost use Rattle.script_board.specs.Image.{words_of};
ghost use Rattle.script_board.specs.declared.image.TheConstants.{IMAGE_BYTES};
ghost use Rattle.script_replay.specs.Replays.{ReplaysWhole};
ghost use Rattle.storage_cli.specs.Replays.{AllTell};
ghost use Rattle.storage_cli.specs.Steps.Stops.{IsAttached, IsFirst, StopsByCause, StopsEarly};
ghost use Rattle.storage_cli.specs.Steps.Replaying.{ending_of, input_after, output_after, OnWhole, OnPrefix, IsReadStop, StopsBefore, StopsInside};

use crate::copying::copy_image;
use crate::stop::{Foreign, Stop};
use flash_traits::{Board, Sink, Source};
use script_board::IMAGE_BYTES;
use script_replay::replay_script;
use sector_image::{Images, survey};
use std::alloc::Global;

/// What a replay that didn't stop has come to.
#[derive(Clone, Copy, Debug, PartialEq, Eq)]
pub(crate) enum Replayed {
    /// The end of its script: the SHA-256 of the storage bytes that are left.
    Whole([u8; 32]),
    /// The output failed.
    Prefix,
}

/// How a command ends where its script stopped.
fn ending_of(why: script_replay::Stop) -> Result<Replayed, Stop>
    ensures { result ≡ ending_of why }
{
    match why {
        script_replay::Stop::Memory => Err(Stop::Memory),
        script_replay::Stop::Foreign {
            region,
            offset,
            word,
        } => Err(Stop::Foreign(Foreign {
            region,
            offset,
            word,
        })),
        script_replay::Stop::Worn { .. } => Err(Stop::Worn),
        script_replay::Stop::Refused { line } => Err(Stop::Script(line)),
        script_replay::Stop::Input => Err(Stop::Input),
        script_replay::Stop::Output => Ok(Replayed::Prefix),
    }
}

/// Reads the image that is attached, and copies its words. Nothing is programmed.
fn read_image<B: Board>(board: &mut B, images: &mut Images, copy: &mut [u8]) -> Result<(), Stop>
    requires attached { IsSectorSize (B.sector_bytes board.old) }
    requires whole { length copy.old ≡ IMAGE_BYTES }
    ensures stands { OnOk result (B.tells board.new
        → (bytes : List ℕ) × Stands (B.words board.old) bytes) }
    ensures copied { OnOk result (B.tells board.new
        → words_of (B.sector_bytes board.old) copy.new ≡ B.words board.old) }
    ensures foreign { B.tells board.new → IfErr result (IsFirst (B.words board.old)) }
    ensures stops { IfErr result IsReadStop }
    ensures reads { OnlyReads B.Board board.old board.new }
    ensures cause { StopsByCause (B.faults board.old) (B.faults board.new) result }
{
    survey(board, images)?;
    copy_image(board, copy)?;
    Ok(())
}

/// Runs the script over a copy of the image that is attached. The memory of the copy is taken
/// before the image is read.
fn replay_image<B: Board, S: Source, K: Sink>(
    alloc: Global,
    board: &mut B,
    input: &mut S,
    out: &mut K,
) -> Result<Replayed, Stop>
    requires attached { IsSectorSize (B.sector_bytes board.old) }
    ensures whole { IfOk result (λ replayed. OnWhole replayed (λ digest.
        AllTell B.Board S.Source K.Sink board.new input.new out.new
        → (text : List ℕ) × (K.written out.new ≡ K.written out.old ++ text)
        × ReplaysWhole (budget_of (B.sector_bytes board.new)) (B.words board.old)
        (S.rest input.old) (S.rest input.new) text digest)) }
    ensures output { IfOk result (λ replayed.
        OnPrefix replayed (Rose (K.faults out.old) (K.faults out.new))) }
    ensures stops { IfErr result (λ why.
        StopsBefore (B.tells board.new) (B.words board.old)
        ((input.new ≡ input.old) × (out.new ≡ out.old)) why
        ⊎ StopsInside (AllTell B.Board S.Source K.Sink board.new input.new out.new)
        (budget_of (B.sector_bytes board.new)) (B.words board.old) (S.rest input.old)
        (S.rest input.new) (K.written out.old) (K.written out.new) (S.faults input.old)
        (S.faults input.new) why) }
    ensures grows { K.tells_written out.new
        → (text : List ℕ) × (K.written out.new ≡ K.written out.old ++ text) }
    ensures foreign_where { B.tells board.new → (place : Place) → FirstBad (B.words board.old) place
        → StopsEarly result }
    ensures reads { OnlyReads B.Board board.old board.new }
    ensures cause { StopsByCause (B.faults board.old) (B.faults board.new) result }
    ensures input_counts { S.faults input.new ≡ input_after result (S.faults input.old) }
    ensures output_counts { K.faults out.new ≡ output_after result (K.faults out.old) }
{
    let mut images = Images::new(alloc)?;
    let mut copy = vec![in alloc; 0u8; IMAGE_BYTES]?;
    read_image(board, &mut images, &mut copy)?;
    let sector_bytes = board.geometry().sector_bytes;
    match replay_script(alloc, &mut images, sector_bytes, copy, input, out) {
        Ok(digest) => Ok(Replayed::Whole(digest)),
        Err(why) => ending_of(why),
    }
}

/// Attaches an image, and runs the script of the input over a copy of it. The image itself is only
/// read.
pub(crate) fn replay_on<B: Board, S: Source, K: Sink>(
    alloc: Global,
    board: &mut B,
    image: &str,
    input: &mut S,
    out: &mut K,
) -> Result<Replayed, Stop>
    ensures whole { IfOk result (λ replayed. OnWhole replayed (λ digest.
        AllTell B.Board S.Source K.Sink board.new input.new out.new
        → (text : List ℕ) × (K.written out.new ≡ K.written out.old ++ text)
        × ReplaysWhole (budget_of (B.sector_bytes board.new)) (B.words board.old)
        (S.rest input.old) (S.rest input.new) text digest)) }
    ensures output { IfOk result (λ replayed.
        OnPrefix replayed (Rose (K.faults out.old) (K.faults out.new))) }
    ensures stops { IfErr result (λ why.
        StopsBefore (B.tells board.new) (B.words board.old)
        ((input.new ≡ input.old) × (out.new ≡ out.old)) why
        ⊎ StopsInside (AllTell B.Board S.Source K.Sink board.new input.new out.new)
        (budget_of (B.sector_bytes board.new)) (B.words board.old) (S.rest input.old)
        (S.rest input.new) (K.written out.old) (K.written out.new) (S.faults input.old)
        (S.faults input.new) why) }
    ensures grows { K.tells_written out.new
        → (text : List ℕ) × (K.written out.new ≡ K.written out.old ++ text) }
    ensures foreign_where { B.tells board.new → (place : Place) → FirstBad (B.words board.old) place
        → StopsEarly result }
    ensures same_words { IsAttached result → B.tells board.new
        → B.words board.new ≡ B.words board.old }
    ensures moment { B.moment board.new ≡ B.moment board.old }
    ensures cause { StopsByCause (B.faults board.old) (B.faults board.new) result }
    ensures input_counts { S.faults input.new ≡ input_after result (S.faults input.old) }
    ensures output_counts { K.faults out.new ≡ output_after result (K.faults out.old) }
{
    if board.attach(image, 0, None).is_err() {
        return Err(Stop::Attach);
    }
    replay_image(alloc, board, input, out)
}
