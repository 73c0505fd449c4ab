//! The image in both sectors: entries go to the other one, and the copy makes it whole.
ghost use Rattle.std.specs.Prelude.{◌≡◌, ◌+◌, ◌-◌, ◌*◌, ◌/◌, ◌<◌, ◌≤◌, ◌↔◌, ℕ, List, true, false};
ghost use Rattle.std.specs.Prelude.{length, IsTrue, IfOk, OnOk, OnErr, IfErr, IfSome, Some, None};
ghost use Rattle.flash_traits.specs.declared.numbers.TheConstants.{GUARD_HALFWORDS};
ghost use Rattle.flash_traits.specs.declared.board.Fault.TheVariants.{Flash};
ghost use Rattle.flash_traits.specs.Losses.{ByResult};
ghost use Rattle.flash_traits.specs.Calls.{Changes, ErasesNothing};
ghost use Rattle.flash_traits.specs.declared.board.Fault.{Fault};
ghost use Rattle.flash_traits.specs.Causes.{HasCause, counts_after, told_by};
ghost use Rattle.sector_image.specs.declared.kept.Kept.{Kept};
ghost use Rattle.sector_image.specs.Images.{IsFirstLeft, with_chunk};
ghost use Rattle.sector_log.specs.Storage.{storage_bytes};
ghost use Rattle.flash_traits.specs.Values.{put};
ghost use Rattle.sector_log.specs.Appends.{AreWholeLines, appended};
ghost use Rattle.flash_traits.specs.Counts.{raised_by};
ghost use Rattle.sector_image.specs.Images.{Bytes};
ghost use Rattle.sector_image.specs.Room.{is_left, left_to_copy};
ghost use Rattle.flash_traits.specs.Budget.{chunks};
ghost use Rattle.sector_image.specs.Losses.{KeepsBytes, Puts, MayPut};
ghost use Rattle.sector_image.specs.Fits.{FitsAlone, FitsSpilled, free_of, left_chunks};
ghost use Rattle.sector_switch.specs.States.{FitsCopied, left_in, taken_of, room_of, with_appended};
ghost use Rattle.sector_switch.specs.Refusals.{kept_in, is_whole, OnSwitchWorn, OnSwitchFault, switch_fault_in};
ghost use Rattle.sector_switch.specs.Steps.Calls.{OnlyPrograms};

use crate::{Alone, Copied, Images, Kept, VoidError};
use flash_traits::{Board, COPY_BYTES, Fault, GUARD_HALFWORDS};
use sector_image::torn_chunk;
use sector_log::{append, finish_torn};
use std::marker::Model;

/// Home is full, and the other sector takes the entries. What home has and the other hasn't is
/// still to be copied.
#[derive(Debug, Drop)]
pub struct Spilled {
    pub(crate) kept: Kept,
}

impl Model for Spilled {
    ghost use Rattle.sector_image.specs.declared.kept.Kept.{Kept};

    ghost Value = { Kept };

    ghost view = { λ state. state.kept };
}

/// A step of the copy: something is left, or the copy is whole.
#[derive(Debug, Drop)]
pub enum CopyStep {
    More(Spilled),
    Whole(Copied),
}

impl Spilled {
    /// How large a caller's entry may be, in bytes, its header among them.
    pub fn room(&self, images: &Images) -> u32
        ensures { result ≡ room_of self.now images.now }
    {
        room_in(&self.kept, images)
    }

    /// Puts an entry of 1 to 8 whole lines, from the line `first` on. A loss inside leaves the
    /// bytes of before or those with this entry.
    pub fn append<B: Board>(
        self,
        board: &mut B,
        images: &mut Images,
        first: u16,
        bytes: &[u8],
    ) -> Result<Spilled, Fault>
        requires fits { FitsSpilled B.Board board.old self images.old }
        requires lines { AreWholeLines first bytes.now }
        requires room { 2 + length bytes.now ≤ room_of self images.old }
        ensures fits { IfOk result (λ spilled. FitsSpilled B.Board board.new spilled images.new) }
        ensures kept { IfOk result (λ spilled. spilled ≡ with_appended self
            (length bytes.now / 8)) }
        ensures left { IfOk result
            (λ spilled. left_chunks spilled images.new ≤ left_in self images.old) }
        ensures put { OnOk result (images.new.whole ≡ put (8 * first) bytes.now images.old.whole) }
        ensures err { OnErr result (images.new ≡ images.old) }
        ensures changes { Changes B.Board board.old board.new (MayPut first bytes.now)
            (ByResult result (Puts first bytes.now) (MayPut first bytes.now)) }
        ensures erases { ErasesNothing B.Board board.old board.new }
        ensures programs { (B.moment board.new).programs ≤ raised_by (2 + length bytes.now / 2)
            (B.moment board.old).programs }
        ensures cause { HasCause Flash (B.faults board.old) (B.faults board.new) result }
        ensures kind { IfErr result (λ kind. kind ≡ Flash) }
    {
        let kept = put_spilled(board, self.kept, first, bytes, images)?;
        Ok(Spilled { kept })
    }

    /// Completes the completable torn last entry, or else copies the first chunk that isn't
    /// covered. A loss inside leaves the bytes of before.
    ///
    /// The chunks that are left, and one for a completable torn last entry, fall unless they are 0,
    /// and Whole comes exactly where they are then 0. Where they were 0 before nothing is
    /// programmed. A chunk takes no more bytes than were kept for it.
    pub fn copy_chunk<B: Board>(self, board: &mut B, images: &mut Images) -> Result<CopyStep, Fault>
        requires fits { FitsSpilled B.Board board.old self images.old }
        ensures whole { images.new.whole ≡ images.old.whole }
        ensures fits { IfOk result (λ step. FitsSpilled B.Board board.new
            (kept_in step) images.new) }
        ensures falls { IfOk result (λ step. left_in
            (kept_in step) images.new ≤ left_in self images.old - 1) }
        ensures last { IfOk result (λ step. IsTrue (is_whole step)
            ↔ (left_in (kept_in step) images.new ≡ 0)) }
        ensures copied { IfOk result (λ step. IsTrue (is_whole step) →
            FitsCopied B.Board board.new (kept_in step) images.new) }
        ensures ascending { self.completable ≡ false → (chunk : ℕ) → IsFirstLeft images.old chunk →
            OnOk result (images.new ≡ with_chunk images.old chunk) }
        ensures taken { IfOk result (λ step. taken_of
            (kept_in step) images.new ≤ taken_of self images.old) }
        ensures guard { IfOk result (λ step. (kept_in step).guard ≡ self.guard) }
        ensures home { IfOk result (λ step. (kept_in step).home ≡ self.home) }
        ensures size { IfOk result (λ step. (kept_in step).sector_bytes ≡ self.sector_bytes) }
        ensures idle { left_in self images.old ≡ 0 → board.new ≡ board.old }
        ensures changes { Changes B.Board board.old board.new (KeepsBytes 0) (KeepsBytes 0) }
        ensures erases { ErasesNothing B.Board board.old board.new }
        ensures programs { (B.moment board.new).programs ≤ raised_by 34
            (B.moment board.old).programs }
        ensures cause { HasCause Flash (B.faults board.old) (B.faults board.new) result }
        ensures kind { IfErr result (λ kind. kind ≡ Flash) }
    {
        let kept = copy_step(board, self.kept, images)?;
        Ok(step_of(kept, images))
    }

    /// Copies all that is left, a chunk by 34 programs at most. A loss inside leaves the bytes of
    /// before.
    pub fn copy<B: Board>(self, board: &mut B, images: &mut Images) -> Result<Copied, Fault>
        requires fits { FitsSpilled B.Board board.old self images.old }
        ensures whole { images.new.whole ≡ images.old.whole }
        ensures fits { IfOk result (λ copied. FitsCopied B.Board board.new copied images.new) }
        ensures taken { IfOk result
            (λ copied. taken_of copied images.new ≤ taken_of self images.old) }
        ensures guard { IfOk result (λ copied. copied.guard ≡ self.guard) }
        ensures home { IfOk result (λ copied. copied.home ≡ self.home) }
        ensures size { IfOk result (λ copied. copied.sector_bytes ≡ self.sector_bytes) }
        ensures changes { Changes B.Board board.old board.new (KeepsBytes 0) (KeepsBytes 0) }
        ensures erases { ErasesNothing B.Board board.old board.new }
        ensures programs { (B.moment board.new).programs
            ≤ raised_by (34 * left_in self images.old) (B.moment board.old).programs }
        ensures cause { HasCause Flash (B.faults board.old) (B.faults board.new) result }
        ensures kind { IfErr result (λ kind. kind ≡ Flash) }
    {
        let mut state = self;
        loop {
            match state.copy_chunk(board, images)? {
                CopyStep::More(next) => state = next,
                CopyStep::Whole(copied) => return Ok(copied),
            }
        }
    }

    /// Copies all that is left, and makes the other sector home and the one that was home
    /// available. A loss inside leaves the bytes of before.
    pub fn switch<B: Board>(self, board: &mut B, images: &mut Images) -> Result<Alone, SwitchError>
        requires fits { FitsSpilled B.Board board.old self images.old }
        ensures whole { images.new.whole ≡ images.old.whole }
        ensures fits { IfOk result (λ alone. FitsAlone B.Board board.new alone images.new) }
        ensures guard { IfOk result (λ alone. alone.guard ≡ self.guard + 2) }
        ensures filled { IfOk result (λ alone. 2 * alone.home.end ≤ taken_of self images.old) }
        ensures free { IfOk result
            (λ alone. self.sector_bytes - taken_of self images.old ≤ free_of alone) }
        ensures changes { Changes B.Board board.old board.new (KeepsBytes 2) (KeepsBytes 2) }
        ensures erases_once { (B.moment board.new).erases
            ≤ raised_by 1 (B.moment board.old).erases }
        ensures programs { (B.moment board.new).programs
            ≤ raised_by (34 * left_in self images.old + 4) (B.moment board.old).programs }

        // the guard row is used up: the copy is whole, and home is as it was
        ensures worn { IfErr result (λ e. OnSwitchWorn e
            (λ count. (count ≡ GUARD_HALFWORDS) × (self.guard ≡ GUARD_HALFWORDS))) }
        ensures worn_copied { IfErr result (λ e. OnSwitchWorn e (λ count. (kept : Kept)
            × FitsCopied B.Board board.new kept images.new × (kept.guard ≡ GUARD_HALFWORDS)
            × (kept.home ≡ self.home) × (kept.sector_bytes ≡ self.sector_bytes))) }
        ensures used_up { self.guard ≡ GUARD_HALFWORDS → IfOk result (λ _. ⊥) }

        ensures fault { IfErr result (λ e. OnSwitchFault e (λ kind. kind ≡ Flash)) }
        ensures counts { B.faults board.new
            ≡ counts_after (told_by switch_fault_in result) (B.faults board.old) }
    {
        let copied = self.copy(board, images)?;
        let alone = copied.settle(board)?;
        Ok(alone)
    }
}

/// Why an image wasn't switched to the other sector.
#[derive(Clone, Copy, Debug, PartialEq, Eq)]
pub enum SwitchError {
    /// A program or the erase failed.
    Fault(Fault),
    /// The guard row is used up. The copy is whole, and the words still stand for the bytes.
    Worn { count: u16 },
}

impl From<Fault> for SwitchError {
    ghost use Rattle.sector_switch.specs.declared.spilled_state.SwitchError.TheVariants as errors;

    ghost from_gives = { λ fault e. e ≡ errors.Fault fault };

    fn from(fault: Fault) -> SwitchError {
        SwitchError::Fault(fault)
    }
}

impl From<VoidError> for SwitchError {
    ghost use Rattle.sector_switch.specs.Steps.Errors.{error_of_void};

    ghost from_gives = { λ void e. e ≡ error_of_void void };

    fn from(void: VoidError) -> SwitchError {
        match void {
            VoidError::Fault(kind) => SwitchError::Fault(kind),
            VoidError::Worn(_) => SwitchError::Worn {
                count: GUARD_HALFWORDS as u16,
            },
        }
    }
}

/// How large a caller's entry may be.
fn room_in(kept: &Kept, images: &Images) -> u32
    ensures { result ≡ room_of kept.now images.now }
{
    let Some(log) = kept.other else {
        return 0;
    };
    let left = images.count_left(torn_chunk(kept.completable, log));
    let copy = COPY_BYTES as u64;
    let used = 2 * log.end as u64 + copy * left as u64 + copy;
    (kept.sector_bytes as u64).saturating_sub(used) as u32
}

/// Puts an entry of a caller's lines into the other sector.
fn put_spilled<B: Board>(
    board: &mut B,
    kept: Kept,
    first: u16,
    bytes: &[u8],
    images: &mut Images,
) -> Result<Kept, Fault>
    requires fits { FitsSpilled B.Board board.old kept images.old }
    requires lines { AreWholeLines first bytes.now }
    requires room { 2 + length bytes.now ≤ room_of kept images.old }
    ensures fits { IfOk result (λ new. FitsSpilled B.Board board.new new images.new) }
    ensures kept { IfOk result (λ new. new ≡ with_appended kept (length bytes.now / 8)) }
    ensures left { IfOk result (λ new. left_chunks new images.new ≤ left_in kept images.old) }
    ensures put { OnOk result (images.new.whole ≡ put (8 * first) bytes.now images.old.whole) }
    ensures err { OnErr result (images.new ≡ images.old) }
    ensures changes { Changes B.Board board.old board.new (MayPut first bytes.now)
        (ByResult result (Puts first bytes.now) (MayPut first bytes.now)) }
    ensures only_programs { OnlyPrograms B.Board (2 + length bytes.now / 2)
        board.old result board.new }
{
    let Some(log) = kept.other else {
        unreachable!()
    };
    let next = append(board, log, first, bytes)?;
    images.put_lines(first, bytes);
    Ok(Kept {
        other: Some(next),
        completable: false,
        ..kept
    })
}

/// Copies a chunk as an entry of eight lines.
fn copy_one<B: Board>(
    board: &mut B,
    kept: Kept,
    chunk: usize,
    images: &mut Images,
) -> Result<Kept, Fault>
    requires fits { FitsSpilled B.Board board.old kept images.old }
    requires plain { kept.completable ≡ false }
    requires chunk { chunk < chunks }
    requires left { is_left images.old.whole images.old.upper None chunk ≡ true }
    ensures whole { images.new.whole ≡ images.old.whole }
    ensures covers { OnOk result (images.new ≡ with_chunk images.old chunk) }
    ensures plain { IfOk result (λ new. new.completable ≡ false) }
    ensures guard { IfOk result (λ new. new.guard ≡ kept.guard) }
    ensures home { IfOk result (λ new. new.home ≡ kept.home) }
    ensures size { IfOk result (λ new. new.sector_bytes ≡ kept.sector_bytes) }
    ensures taken { IfOk result (λ new. taken_of new images.new ≤ taken_of kept images.old) }
    ensures fits { IfOk result (λ new. FitsSpilled B.Board board.new new images.new) }
    ensures falls { OnOk result (left_to_copy images.new.whole images.new.upper None
        < left_to_copy images.old.whole images.old.upper None) }
    ensures changes { Changes B.Board board.old board.new (KeepsBytes 0) (KeepsBytes 0) }
    ensures only_programs { OnlyPrograms B.Board 34 board.old result board.new }
{
    let Some(log) = kept.other else {
        unreachable!()
    };
    let next = append(board, log, 8 * chunk as u16, images.chunk(chunk))?;
    images.cover(chunk);
    Ok(Kept {
        other: Some(next),
        completable: false,
        ..kept
    })
}

/// Completes the completable torn last entry.
fn finish_one<B: Board>(board: &mut B, kept: Kept, images: &mut Images) -> Result<Kept, Fault>
    requires fits { FitsSpilled B.Board board.old kept images.old }
    requires torn { kept.completable ≡ true }
    ensures whole { images.new.whole ≡ images.old.whole }
    ensures plain { IfOk result (λ new. new.completable ≡ false) }
    ensures guard { IfOk result (λ new. new.guard ≡ kept.guard) }
    ensures home { IfOk result (λ new. new.home ≡ kept.home) }
    ensures size { IfOk result (λ new. new.sector_bytes ≡ kept.sector_bytes) }
    ensures taken { IfOk result (λ new. taken_of new images.new ≤ taken_of kept images.old) }
    ensures fits { IfOk result (λ new. FitsSpilled B.Board board.new new images.new) }
    ensures falls { OnOk result
        (left_to_copy images.new.whole images.new.upper None ≤ left_chunks kept images.old) }
    ensures changes { Changes B.Board board.old board.new (KeepsBytes 0) (KeepsBytes 0) }
    ensures only_programs { OnlyPrograms B.Board 34 board.old result board.new }
{
    let Some(log) = kept.other else {
        unreachable!()
    };
    let Some(torn) = log.torn else { unreachable!() };
    let chunk = torn.line as usize / 8;
    let next = finish_torn(board, log, images.chunk(chunk))?;
    images.cover(chunk);
    Ok(Kept {
        other: Some(next),
        completable: false,
        ..kept
    })
}

/// Completes the completable torn last entry, or else copies the first chunk that isn't covered.
fn copy_step<B: Board>(board: &mut B, kept: Kept, images: &mut Images) -> Result<Kept, Fault>
    requires fits { FitsSpilled B.Board board.old kept images.old }
    ensures whole { images.new.whole ≡ images.old.whole }
    ensures ascending { kept.completable ≡ false → (chunk : ℕ) → IsFirstLeft images.old chunk →
        OnOk result (images.new ≡ with_chunk images.old chunk) }
    ensures plain { IfOk result (λ new. new.completable ≡ false) }
    ensures guard { IfOk result (λ new. new.guard ≡ kept.guard) }
    ensures home { IfOk result (λ new. new.home ≡ kept.home) }
    ensures size { IfOk result (λ new. new.sector_bytes ≡ kept.sector_bytes) }
    ensures taken { IfOk result (λ new. taken_of new images.new ≤ taken_of kept images.old) }
    ensures fits { IfOk result (λ new. FitsSpilled B.Board board.new new images.new) }
    ensures falls { OnOk result
        (left_to_copy images.new.whole images.new.upper None ≤ left_in kept images.old - 1) }
    ensures idle { left_in kept images.old ≡ 0 → board.new ≡ board.old }
    ensures changes { Changes B.Board board.old board.new (KeepsBytes 0) (KeepsBytes 0) }
    ensures only_programs { OnlyPrograms B.Board 34 board.old result board.new }
{
    if kept.completable {
        finish_one(board, kept, images)
    } else {
        match images.first_left() {
            Some(chunk) => copy_one(board, kept, chunk, images),
            None => Ok(kept),
        }
    }
}

/// Whether something is left to copy.
fn step_of(kept: Kept, images: &Images) -> CopyStep
    requires plain { kept.completable ≡ false }
    ensures kept { kept_in result ≡ kept }
    ensures last { IsTrue (is_whole result)
        ↔ (left_to_copy images.now.whole images.now.upper None ≡ 0) }
{
    if images.count_left(None) == 0 {
        CopyStep::Whole(Copied { kept })
    } else {
        CopyStep::More(Spilled { kept })
    }
}
