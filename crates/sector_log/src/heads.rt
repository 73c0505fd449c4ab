//! The head of a sector, a mark with the signature behind it: read and programmed here alone.
ghost use Rattle.std.specs.Prelude.{◌≡◌, ◌≢◌, ◌≤◌, IsTrue, IfOk, IfErr, IfSome, IfNone};
ghost use Rattle.flash_traits.specs.declared.board.Fault.TheVariants.{Read, Flash};
ghost use Rattle.flash_traits.specs.declared.board.Mark.{Mark};
ghost use Rattle.flash_traits.specs.declared.numbers.TheConstants.{SIGNATURE};
ghost use Rattle.flash_traits.specs.Words.{halfwords_in, IsSectorRegion, IsSectorSize, Programs, ProgramMayLeave};
ghost use Rattle.flash_traits.specs.Losses.{ByResult};
ghost use Rattle.flash_traits.specs.Counts.{raised_by};
ghost use Rattle.flash_traits.specs.Calls.{Changes, ErasesNothing, OnlyReads};
ghost use Rattle.flash_traits.specs.Causes.{FailsBy, counts_after, told_by};
ghost use Rattle.flash_traits.specs.Marks.{mark_word};
ghost use Rattle.flash_traits.specs.Pairs.{ProgramsPair, PairMayLeave};
ghost use Rattle.sector_log.specs.Errors.{OnWord, OnFault, fault_in};
ghost use Rattle.sector_log.specs.Heads.{may_stand};
ghost use Rattle.sector_log.specs.Sector.{HasHead, BadHead};

use flash_traits::{
    Board, Fault, LogError, Mark, Region, SIGNATURE, program_halfword, program_pair, read_halfword,
};

/// Which marks may stand at the head of a sector.
#[derive(Clone, Copy, Debug, PartialEq, Eq)]
pub struct Marks {
    pub available: bool,
    pub in_use: bool,
    pub full: bool,
}

/// The mark that a halfword is, where it is one that may stand here.
fn mark_of(word: u16, marks: Marks) -> Option<Mark>
    ensures some { IfSome result (λ mark. IsTrue (may_stand marks mark) × (word ≡ mark_word mark)) }
    ensures none { IfNone result ((mark : Mark) → IsTrue (may_stand marks mark)
        → word ≢ mark_word mark) }
{
    let mark = Mark::from_word(word)?;
    let stands = match mark {
        Mark::Available => marks.available,
        Mark::InUse => marks.in_use,
        Mark::Full => marks.full,
    };
    if stands { Some(mark) } else { None }
}

/// The mark at the head of a sector, which must be one of these, with the signature behind it.
///
/// A Word is the first of both halfwords that isn't right.
pub fn read_head<B: Board>(board: &mut B, region: Region, marks: Marks) -> Result<Mark, LogError>
    requires attached { IsSectorSize (B.sector_bytes board.old) }
    requires sector { IsSectorRegion region }
    ensures may { IfOk result (λ mark. IsTrue (may_stand marks mark)) }
    ensures head { IfOk result
        (λ mark. B.tells board.new → HasHead (halfwords_in (B.words board.old) region) mark) }
    ensures word { IfErr result (λ e. OnWord e (λ place word. B.tells board.new →
        BadHead (may_stand marks) (halfwords_in (B.words board.old) region) place word)) }
    ensures fault { IfErr result (λ e. OnFault e (λ kind. kind ≡ Read)) }
    ensures counts { B.faults board.new
        ≡ counts_after (told_by fault_in result) (B.faults board.old) }
    ensures reads { OnlyReads B.Board board.old board.new }
{
    let word = read_halfword(board, region, 0)?;
    let Some(mark) = mark_of(word, marks) else {
        return Err(LogError::Word { offset: 0, word });
    };
    let word = read_halfword(board, region, 1)?;
    if word != SIGNATURE {
        return Err(LogError::Word { offset: 1, word });
    }
    Ok(mark)
}

/// Programs the head of an erased sector: this mark, and then the signature.
///
/// A loss inside leaves the sector erased, with the mark alone, or with its head.
pub fn begin_sector<B: Board>(board: &mut B, region: Region, mark: Mark) -> Result<(), Fault>
    requires attached { IsSectorSize (B.sector_bytes board.old) }
    requires sector { IsSectorRegion region }
    ensures changes { Changes B.Board board.old board.new
        (PairMayLeave region 0 (mark_word mark) SIGNATURE)
        (ByResult result (ProgramsPair region 0 (mark_word mark) SIGNATURE)
        (PairMayLeave region 0 (mark_word mark) SIGNATURE)) }
    ensures erases { ErasesNothing B.Board board.old board.new }
    ensures programs { (B.moment board.new).programs ≤ raised_by 2 (B.moment board.old).programs }
    ensures fails { FailsBy Flash (B.faults board.old) (B.faults board.new) result }
{
    match program_pair(board, region, 0, mark.word(), SIGNATURE) {
        Ok(()) => Ok(()),
        Err(_) => Err(Fault::Flash),
    }
}

/// Programs the mark of a sector. A loss inside leaves the mark before or this one.
pub fn set_mark<B: Board>(board: &mut B, region: Region, mark: Mark) -> Result<(), Fault>
    requires attached { IsSectorSize (B.sector_bytes board.old) }
    requires sector { IsSectorRegion region }
    ensures changes { Changes B.Board board.old board.new
        (ProgramMayLeave region 0 (mark_word mark))
        (ByResult result (Programs region 0 (mark_word mark))
        (ProgramMayLeave region 0 (mark_word mark))) }
    ensures erases { ErasesNothing B.Board board.old board.new }
    ensures programs { (B.moment board.new).programs ≡ raised_by 1 (B.moment board.old).programs }
    ensures fails { FailsBy Flash (B.faults board.old) (B.faults board.new) result }
{
    program_halfword(board, region, 0, mark.word())
}
