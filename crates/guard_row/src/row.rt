//! The count that a guard row tells, and the program that makes it the next one.
ghost use Rattle.std.specs.Prelude.{◌≡◌, ◌≢◌, ◌+◌, ◌<◌, ◌≤◌, ℕ, slice_index, IfOk, OnOk, IfErr};
ghost use Rattle.flash_traits.specs.declared.board.Fault.TheVariants.{Read, Flash};
ghost use Rattle.flash_traits.specs.declared.board.Region.TheVariants.{Guard};
ghost use Rattle.flash_traits.specs.Words.{IsSectorSize, Same, Programs, ProgramMayLeave};
ghost use Rattle.flash_traits.specs.Losses.{ByResult, after_program};
ghost use Rattle.flash_traits.specs.Calls.{Changes, OnlyReads};
ghost use Rattle.flash_traits.specs.declared.numbers.TheConstants.{ERASED, GUARD_HALFWORDS};
ghost use Rattle.flash_traits.specs.Causes.{HasCause, FailsBy, counts_after, told_by};
ghost use Rattle.guard_row.specs.Row.{IsGuardRow, FirstBad, FirstFrom};
ghost use Rattle.guard_row.specs.Steps.{Counts, CountMayLeave};
ghost use Rattle.guard_row.specs.Errors.{OnWord, OnFault, fault_in};

use flash_traits::{
    Board, ERASED, Fault, GUARD_HALFWORDS, Region, program_halfword, read_halfword,
};

/// Why there is no count.
#[derive(Clone, Copy, Debug, PartialEq, Eq)]
pub enum GuardError {
    /// A call failed.
    Fault(Fault),
    /// The halfword at this offset is neither 0 behind zeros nor FFFF.
    Word { offset: u32, word: u16 },
}

impl From<Fault> for GuardError {
    ghost use Rattle.guard_row.specs.declared.row.GuardError.TheVariants as errors;

    ghost from_gives = { λ fault e. e ≡ errors.Fault fault };

    fn from(fault: Fault) -> GuardError {
        GuardError::Fault(fault)
    }
}

/// How many zeros lead.
fn leading_zeros<B: Board>(board: &mut B) -> Result<u32, Fault>
    requires attached { IsSectorSize (B.sector_bytes board.old) }
    ensures within { IfOk result (λ count. count ≤ GUARD_HALFWORDS) }
    ensures zeros { IfOk result (λ count. B.tells board.new →
        (k : ℕ) → k < count → slice_index (B.words board.old).guard k ≡ 0) }
    ensures other { IfOk result (λ count. B.tells board.new →
        count < GUARD_HALFWORDS → slice_index (B.words board.old).guard count ≢ 0) }
    ensures reads { OnlyReads B.Board board.old board.new }
    ensures fails { FailsBy Read (B.faults board.old) (B.faults board.new) result }
{
    for at in 0..GUARD_HALFWORDS {
        let word = read_halfword(board, Region::Guard, at)?;
        if word != 0 {
            return Ok(at);
        }
    }
    Ok(GUARD_HALFWORDS)
}

/// Tests that each halfword from an offset on is erased.
fn test_erased<B: Board>(board: &mut B, from: u32) -> Result<(), GuardError>
    requires attached { IsSectorSize (B.sector_bytes board.old) }
    requires within { from ≤ GUARD_HALFWORDS }
    ensures erased { OnOk result (B.tells board.new →
        (k : ℕ) → from ≤ k → k < GUARD_HALFWORDS
        → slice_index (B.words board.old).guard k ≡ ERASED) }
    ensures word { IfErr result (λ e. OnWord e (λ place word. B.tells board.new →
        FirstFrom (B.words board.old).guard from place word)) }
    ensures fault { IfErr result (λ e. OnFault e (λ kind. kind ≡ Read)) }
    ensures counts { B.faults board.new
        ≡ counts_after (told_by fault_in result) (B.faults board.old) }
    ensures reads { OnlyReads B.Board board.old board.new }
{
    for at in from..GUARD_HALFWORDS {
        let word = read_halfword(board, Region::Guard, at)?;
        if word != ERASED {
            return Err(GuardError::Word { offset: at, word });
        }
    }
    Ok(())
}

/// How many halfwords of the guard row are 0.
pub fn count<B: Board>(board: &mut B) -> Result<u16, GuardError>
    requires attached { IsSectorSize (B.sector_bytes board.old) }
    ensures most { IfOk result (λ count. count ≤ GUARD_HALFWORDS) }
    ensures count { IfOk result (λ count. B.tells board.new
        → IsGuardRow (B.words board.old).guard count) }
    ensures word { IfErr result (λ e. OnWord e (λ place word. B.tells board.new →
        FirstBad (B.words board.old).guard place word)) }
    ensures fault { IfErr result (λ e. OnFault e (λ kind. kind ≡ Read)) }
    ensures counts { B.faults board.new
        ≡ counts_after (told_by fault_in result) (B.faults board.old) }
    ensures changes { Changes B.Board board.old board.new Same Same }
    ensures keeps_told { B.tells board.old → B.tells board.new }
    ensures moment { B.moment board.new ≡ B.moment board.old }
{
    let zeros = leading_zeros(board)?;
    test_erased(board, zeros)?;
    Ok(zeros as u16)
}

/// Programs the next halfword of the guard row to 0, and gives the next count. A loss inside leaves
/// the count or the next one.
pub fn step<B: Board>(board: &mut B, count: u16) -> Result<u16, Fault>
    requires attached { IsSectorSize (B.sector_bytes board.old) }
    requires left { count < GUARD_HALFWORDS }
    ensures next { IfOk result (λ next. next ≡ count + 1) }
    ensures changes { Changes B.Board board.old board.new (ProgramMayLeave Guard count 0)
        (ByResult result (Programs Guard count 0) (ProgramMayLeave Guard count 0)) }
    ensures losses { Changes B.Board board.old board.new (CountMayLeave count)
        (ByResult result (Counts count) (CountMayLeave count)) }
    ensures moment { B.moment board.new ≡ after_program (B.moment board.old) }
    ensures cause { HasCause Flash (B.faults board.old) (B.faults board.new) result }
    ensures kind { IfErr result (λ kind. kind ≡ Flash) }
{
    program_halfword(board, Region::Guard, count as u32, 0)?;
    Ok(count + 1)
}
