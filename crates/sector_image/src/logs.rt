//! The head of a sector, the log behind it, and the bytes of its entries.
ghost use Rattle.std.specs.Prelude.{◌≡◌, ◌/◌, ◌%◌, ◌*◌, List, ℕ, true, length, IfOk, OnOk, IfErr, IsTrue, IsSome, IfSome};
ghost use Rattle.std.specs.Option.{is_some};
ghost use Rattle.flash_traits.specs.declared.board.Fault.TheVariants.{Read};
ghost use Rattle.flash_traits.specs.declared.board.Mark.{Mark};
ghost use Rattle.flash_traits.specs.Words.{halfwords_in, IsSectorRegion, IsSectorSize};
ghost use Rattle.flash_traits.specs.Causes.{FailsBy};
ghost use Rattle.sector_log.specs.Storage.{storage_bytes};
ghost use Rattle.sector_log.specs.Entries.{Entry};
ghost use Rattle.sector_log.specs.Sector.{IsSector, HasHead, BadHead, BadLog};
ghost use Rattle.sector_log.specs.Heads.{may_stand};
ghost use Rattle.sector_log.specs.Bytes.{IsValue, applied};
ghost use Rattle.sector_log.specs.Log.{IsLogOf};
ghost use Rattle.sector_log.specs.Appends.{IsLogIn};
ghost use Rattle.flash_traits.specs.Calls.{OnlyReads};
ghost use Rattle.sector_image.specs.Room.{finishing};
ghost use Rattle.sector_image.specs.FirstBad.{At};
ghost use Rattle.sector_image.specs.Steps.Errors.{error_of_log};
ghost use Rattle.sector_image.specs.Steps.Calls.{ReadsOrRefuses};

use crate::SurveyError;
use crate::images::clear;
use flash_traits::{Board, Fault, LogError, Mark, Region};
use sector_log::{Log, Marks, read_head, scan, torn_fits};

/// Why there is no survey where this sector's head or log can't be read.
fn survey_error(region: Region, error: LogError) -> SurveyError
    ensures { result ≡ error_of_log region error }
{
    match error {
        LogError::Fault(kind) => SurveyError::Fault(kind),
        LogError::Word { offset, word } => SurveyError::Foreign {
            region,
            offset,
            word,
        },
    }
}

/// The mark at the head of a sector.
pub(crate) fn head_at<B: Board>(
    board: &mut B,
    region: Region,
    marks: Marks,
) -> Result<Mark, SurveyError>
    requires attached { IsSectorSize (B.sector_bytes board.old) }
    requires sector { IsSectorRegion region }
    ensures may { IfOk result (λ mark. IsTrue (may_stand marks mark)) }
    ensures head { IfOk result (λ mark. B.tells board.new →
        HasHead (halfwords_in (B.words board.old) region) mark) }
    ensures calls { ReadsOrRefuses B.Board
        (At region (BadHead (may_stand marks) (halfwords_in (B.words board.old) region)))
        board.old result board.new }
{
    read_head(board, region, marks).map_err(|error| survey_error(region, error))
}

/// The log behind a head with this mark, whose valid entries are put at their lines in order.
pub(crate) fn log_at<B: Board>(
    board: &mut B,
    region: Region,
    mark: Mark,
    into: &mut [u8],
) -> Result<Log, SurveyError>
    requires attached { IsSectorSize (B.sector_bytes board.old) }
    requires sector { IsSectorRegion region }
    requires head { B.tells board.old → HasHead (halfwords_in (B.words board.old) region) mark }
    requires storage { length into.old ≡ storage_bytes }
    ensures every { IfOk result (λ log. IsLogIn (B.sector_bytes board.old / 2) log
        × (log.region ≡ region) × (log.mark ≡ mark)) }
    ensures log { IfOk result (λ log. B.tells board.new → (entries : List Entry)
        × IsSector (halfwords_in (B.words board.old) region) mark entries
        × IsLogOf log region mark entries × (into.new ≡ applied into.old entries)) }
    ensures calls { ReadsOrRefuses B.Board
        (At region (BadLog (halfwords_in (B.words board.old) region)))
        board.old result board.new }
{
    let log = scan(board, region, into).map_err(|error| survey_error(region, error))?;
    Ok(Log { mark, ..log })
}

/// The log behind a head with this mark, and the bytes of its entries alone.
pub(crate) fn bytes_at<B: Board>(
    board: &mut B,
    region: Region,
    mark: Mark,
    into: &mut [u8],
) -> Result<Log, SurveyError>
    requires attached { IsSectorSize (B.sector_bytes board.old) }
    requires sector { IsSectorRegion region }
    requires head { B.tells board.old → HasHead (halfwords_in (B.words board.old) region) mark }
    requires storage { length into.old ≡ storage_bytes }
    ensures every { IfOk result (λ log. IsLogIn (B.sector_bytes board.old / 2) log
        × (log.region ≡ region) × (log.mark ≡ mark)) }
    ensures log { IfOk result (λ log. B.tells board.new → (entries : List Entry)
        × IsSector (halfwords_in (B.words board.old) region) mark entries
        × IsLogOf log region mark entries × IsValue entries into.new) }
    ensures calls { ReadsOrRefuses B.Board
        (At region (BadLog (halfwords_in (B.words board.old) region)))
        board.old result board.new }
{
    clear(into);
    log_at(board, region, mark, into)
}

/// Whether the torn last entry of a log can be completed into the copy of a chunk.
pub(crate) fn is_completable<B: Board>(board: &mut B, log: Log, whole: &[u8]) -> Result<bool, Fault>
    requires attached { IsSectorSize (B.sector_bytes board.old) }
    requires log { IsLogIn (B.sector_bytes board.old / 2) log }
    requires whole { length whole.now ≡ storage_bytes }
    ensures chunk { IfOk result (λ completable. completable ≡ true → IsSome log.torn
        × IfSome log.torn (λ torn. (torn.lines ≡ 8) × (torn.line % 8 ≡ 0))) }
    ensures known { IfOk result (λ completable. B.tells board.new →
        (mark : Mark) (entries : List Entry) → IsLogOf log log.region mark entries
        → IsSector (halfwords_in (B.words board.old) log.region) mark entries →
        completable ≡ is_some (finishing whole.now entries)) }
    ensures fails { FailsBy Read (B.faults board.old) (B.faults board.new) result }
    ensures reads { OnlyReads B.Board board.old board.new }
{
    let Some(torn) = log.torn else {
        return Ok(false);
    };
    if torn.lines != 8 || torn.line % 8 != 0 {
        return Ok(false);
    }
    let at = 8 * torn.line as usize;
    torn_fits(board, log, &whole[at..at + 64])
}
