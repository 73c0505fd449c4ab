//! The whole replay, from an image and a script to the digest of the storage bytes.
ghost use Rattle.std.specs.Prelude.{◌≡◌, ◌≢◌, ◌≤◌, ◌++◌, [], true, List, ℕ, length, IfOk, IfErr};
ghost use Rattle.std.specs.Prelude.{OnOk, IfSome, IsSome};
ghost use Rattle.flash_traits.specs.Words.{IsSectorSize};
ghost use Rattle.flash_traits.specs.Budget.{budget_of};
ghost use Rattle.flash_traits.specs.Causes.{Rose};
ghost use Rattle.flash_traits.specs.declared.numbers.TheConstants.{GUARD_HALFWORDS};
ghost use Rattle.sector_image.specs.Stands.{Stands};
ghost use Rattle.script_board.specs.Image.{words_of};
ghost use Rattle.script_board.specs.declared.image.TheConstants.{IMAGE_BYTES};
ghost use Rattle.replay.specs.Breaks.{OnForeign, OnWorn, OnInput, OnOutput};
ghost use Rattle.replay.specs.Breaks.{after_stop, input_counted, output_counted};
ghost use Rattle.replay.specs.declared.Stop.TheVariants as stops;
ghost use Rattle.sha2.specs.Sha256.{sha256};
ghost use Rattle.sector_image.specs.FirstBad.{FirstBad};
ghost use Rattle.script_replay.specs.Steps.Answers.{IsForeign};
ghost use Rattle.script_replay.specs.Replays.{ReplaysWhole, ReplaysPart};
ghost use Rattle.script_replay.specs.Steps.Places.{HoldsAt, words_at, input_faults_at};
ghost use Rattle.script_replay.specs.Steps.Places.{output_faults_at, TellsRest, TellsWritten};
ghost use Rattle.script_replay.specs.Steps.Replaying.{Begins, ReplaysAt, StopsAt};

use crate::player::ScriptPlayer;
use crate::start::Beginning;
use crate::still::StillBoard;
use arrayvec::ArrayVec;
use flash_traits::{Geometry, Sink, Source};
use replay::{Stop, replay};
use script_board::ScriptBoard;
use sector_image::{Images, SurveyError, one_of_both, survey};
use sha2::{Digest, Sha256};
use std::alloc::Global;
use std::marker::{Brand, PhantomData};

/// A place with a board over this image, before the first line of its script.
fn placed<'a, S: Source, K: Sink>(
    sector_bytes: u32,
    image: Vec<u8>,
    input: &'a mut S,
    out: &'a mut K,
) -> Option<ScriptBoard<'a, S, K>>
    requires size { IsSectorSize sector_bytes }
    requires whole { length image.items ≡ IMAGE_BYTES }
    ensures these { IfSome result
        (λ board. (board.input ≡ input.entry) × (board.out ≡ out.entry)) }
    ensures image { IfSome result (λ board. (board.geometry.sector_bytes ≡ sector_bytes)
        × (board.image.items ≡ image.items)) }
    ensures anew { IfSome result (λ board. (board.buffer.items ≡ []) × (board.ahead ≡ 0)
        × (board.line ≡ 0) × (board.waiting.items ≡ [])) }
    ensures some { IsSome result }
{
    Some(ScriptBoard {
        geometry: Geometry { sector_bytes },
        image,
        input,
        out,
        buffer: ArrayVec::new(),
        ahead: 0,
        line: 0,
        taken: 0,
        given: 0,
        waiting: ArrayVec::new(),
        since: 0,
        mark: None,
        moment: [0; 4],
        faults: [0; 5],
    })
}

/// Ends the loans of a source and of a sink.
fn end<S, K>(input: &mut S, out: &mut K)
    ensures input { input.new ≡ input.old }
    ensures out { out.new ≡ out.old }
{}

/// The SHA-256 of the storage bytes that an image stands for.
fn digest_of(images: &mut Images, sector_bytes: u32, image: Vec<u8>) -> Result<[u8; 32], Stop>
    requires size { IsSectorSize sector_bytes }
    requires whole { length image.items ≡ IMAGE_BYTES }
    ensures digest { IfOk result (λ digest. (bytes : List ℕ)
        × Stands (words_of sector_bytes image.items) bytes × (digest ≡ sha256 bytes)) }
    ensures foreign { IfErr result (IsForeign (FirstBad (words_of sector_bytes image.items))) }
{
    let mut board = StillBoard {
        geometry: Geometry { sector_bytes },
        image,
        still: true,
    };
    match survey(&mut board, images) {
        Ok(_) => Ok(Sha256::digest(images.whole())),
        Err(
            SurveyError::Foreign {
                region,
                offset,
                word,
            },
        ) => Err(Stop::Foreign {
            region,
            offset,
            word,
        }),
        Err(SurveyError::Fault(_)) => unreachable!(),
    }
}

/// Replays the script of the board in the place.
fn replay_on<'a, S: Source, K: Sink, M: Beginning>(
    alloc: Global,
    place: &mut Option<ScriptBoard<'a, S, K>>,
) -> Result<(), Stop>
    requires begins { Begins M.Beginning place.old }
    ensures holds { HoldsAt M.Beginning place.new }
    ensures replayed { OnOk result (ReplaysAt M.Beginning (words_at place.old) place.new) }
    ensures cut_short { IfErr result
        (λ stop. stop ≢ stops.Output → StopsAt M.Beginning (words_at place.old) place.new stop) }
    ensures foreign { IfErr result (OnForeign (λ word.
        TellsRest place.new → TellsWritten place.new
        → (b : List ℕ) → Stands (words_at place.old) b → ⊥)) }
    ensures worn { IfErr result
        (OnWorn (λ count. count ≡ GUARD_HALFWORDS)) }
    ensures input_counts { input_faults_at place.new
        ≡ after_stop input_counted result M.input_faults }
    ensures output_counts { output_faults_at place.new
        ≡ after_stop output_counted result M.output_faults }
{
    let mut player = ScriptPlayer {
        place: place.take(),
        printed: true,
        start: PhantomData::<M>,
    };
    let done = replay(alloc, &mut player);
    let ScriptPlayer {
        place: after,
        printed,
        start: _,
    } = player;
    let Some(board) = after else {
        unreachable!();
    };
    let _ = place.replace(board);
    if printed { done } else { Err(Stop::Output) }
}

/// Runs a script over the words of an image, whose first bytes are those of an image file with
/// sectors of this size, and prints a line for each frame and each loss. The result is the SHA-256
/// of the storage bytes at the end.
///
/// Memory is taken at each opening of a node.
pub fn replay_script<S: Source, K: Sink>(
    alloc: Global,
    images: &mut Images,
    sector_bytes: u32,
    image: Vec<u8>,
    input: &mut S,
    out: &mut K,
) -> Result<[u8; 32], Stop>
    requires size { IsSectorSize sector_bytes }
    requires whole { length image.items ≡ IMAGE_BYTES }

    // At the end of the script what was printed is a history from the bytes of the image on.
    ensures replayed { IfOk result (λ digest. S.tells_rest input.new → K.tells_written out.new
        → (b : List ℕ) → Stands (words_of sector_bytes image.items) b
        → (text : List ℕ) × (K.written out.new ≡ K.written out.old ++ text)
        × ReplaysWhole (budget_of sector_bytes) (words_of sector_bytes image.items)
        (S.rest input.old) (S.rest input.new) text digest) }
    // Where it stopped, but for a fault of the sink, it is one that is cut short.
    ensures cut_short { IfErr result (λ stop. stop ≢ stops.Output
        → S.tells_rest input.new → K.tells_written out.new
        → (b : List ℕ) → Stands (words_of sector_bytes image.items) b
        → (text : List ℕ) × (K.written out.new ≡ K.written out.old ++ text)
        × ReplaysPart (budget_of sector_bytes) (words_of sector_bytes image.items)
        (S.rest input.old) (S.rest input.new) text stop) }
    // Whatever comes, more is printed and nothing of before is lost.
    ensures grows { K.tells_written out.new
        → (text : List ℕ) × (K.written out.new ≡ K.written out.old ++ text) }

    // Why it stopped.
    ensures foreign { IfErr result (OnForeign (λ place.
        S.tells_rest input.new → K.tells_written out.new
        → (b : List ℕ) → Stands (words_of sector_bytes image.items) b → ⊥)) }
    ensures worn { IfErr result
        (OnWorn (λ count. count ≡ GUARD_HALFWORDS)) }
    ensures input { IfErr result
        (OnInput (Rose (S.faults input.old) (S.faults input.new))) }
    ensures output { IfErr result
        (OnOutput (Rose (K.faults out.old) (K.faults out.new))) }

    // The source and the sink failed once where it says so, and else not at all.
    ensures input_counts { S.faults input.new
        ≡ after_stop input_counted result (S.faults input.old) }
    ensures output_counts { K.faults out.new
        ≡ after_stop output_counted result (K.faults out.old) }
    ensures told_rest { S.tells_rest input.new → S.tells_rest input.old }
    ensures told_written { K.tells_written out.new → K.tells_written out.old }
{
    one_of_both();
    let mut place = placed(sector_bytes, image, input, out);
    let done = replay_on::<S, K, Brand>(alloc, &mut place);
    let Some(board) = place else {
        unreachable!();
    };
    let ScriptBoard {
        geometry,
        image,
        input,
        out,
        buffer: _,
        ahead: _,
        line: _,
        taken: _,
        given: _,
        waiting: _,
        since: _,
        mark: _,
        moment: _,
        faults: _,
    } = board;
    end(input, out);
    match done {
        Ok(()) => digest_of(images, geometry.sector_bytes, image),
        Err(stop) => Err(stop),
    }
}
