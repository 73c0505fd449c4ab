//! Which image the words of a board are: the guard row, then the heads, the logs and the room rule,
//! in this order.
ghost use Rattle.std.specs.Prelude.{◌≡◌, ◌%◌, ◌/◌, ◌≤◌, IsTrue, length, IfOk, OnOk, IfErr};
ghost use Rattle.flash_traits.specs.declared.board.Fault.TheVariants.{Read};
ghost use Rattle.flash_traits.specs.declared.board.Mark.TheVariants.{Available, InUse, Full};
ghost use Rattle.flash_traits.specs.Words.{IsSectorSize};
ghost use Rattle.flash_traits.specs.Causes.{counts_after, told_by};
ghost use Rattle.guard_row.specs.Row.{IsGuardRow};
ghost use Rattle.sector_log.specs.Storage.{storage_bytes};
ghost use Rattle.sector_log.specs.Appends.{IsLogIn};
ghost use Rattle.flash_traits.specs.Calls.{OnlyReads};
ghost use Rattle.guard_row.specs.Home.{first_of, second_of};
ghost use Rattle.sector_image.specs.Stands as stands;
ghost use Rattle.sector_image.specs.Stands.{home_mark, beside, Stands};
ghost use Rattle.sector_image.specs.FirstBad.{Place, FirstBad, AreHeads};
ghost use Rattle.sector_image.specs.Fits.{FitsShape, mark_of, other_mark_of, parity_of};
ghost use Rattle.sector_image.specs.Surveys.{AreLogs};
ghost use Rattle.sector_image.specs.Refusals.{OnForeign, OnSurveyFault, fault_in};
ghost use Rattle.sector_image.specs.Steps.Calls.{CanSurvey, ReadsOrRefuses, FindsImage};

use crate::chunks::torn_chunk;
use crate::coverage::Coverage;
use crate::logs::{bytes_at, head_at, is_completable, log_at};
use crate::{Images, Kept, Shape, Survey, SurveyError};
use flash_traits::{Board, COPY_BYTES, Mark};
use guard_row::{count, first_sector, second_sector};
use sector_log::{Log, Marks};

/// Reads the image: its state, and its bytes into `images`. Nothing is programmed.
///
/// Each halfword is read at most four times (not proved: no board counts its reads).
pub fn survey<B: Board>(board: &mut B, images: &mut Images) -> Result<Survey, SurveyError>
    requires attached { IsSectorSize (B.sector_bytes board.old) }
    ensures fits { IfOk result
        (λ survey. FitsShape survey.shape B.Board board.new survey.kept images.new) }
    ensures stands { OnOk result (B.tells board.new → Stands (B.words board.old) images.new.whole) }
    ensures foreign { IfErr result (λ e. OnForeign e
        (λ place. B.tells board.new → FirstBad (B.words board.old) place)) }
    ensures fault { IfErr result (λ e. OnSurveyFault e (λ kind. kind ≡ Read)) }
    ensures counts { B.faults board.new
        ≡ counts_after (told_by fault_in result) (B.faults board.old) }
    ensures reads { OnlyReads B.Board board.old board.new }
{
    let guard = count(board)?;
    let survey = survey_sectors(board, guard, &mut images.whole, &mut images.upper);
    images.coverage = Coverage::of(&images.whole, &images.upper);
    survey
}

/// The image by this guard count.
fn survey_sectors<B: Board>(
    board: &mut B,
    guard: u16,
    whole: &mut [u8],
    upper: &mut [u8],
) -> Result<Survey, SurveyError>
    requires given { CanSurvey (B.sector_bytes board.old) guard whole.old upper.old }
    requires row { B.tells board.old → IsGuardRow (B.words board.old).guard guard }
    ensures finds { FindsImage B.Board board.old result board.new whole.new upper.new }
    ensures calls { ReadsOrRefuses B.Board (FirstBad (B.words board.old))
        board.old result board.new }
{
    if guard % 2 == 1 {
        return survey_voided(board, guard, whole, upper);
    }
    match heads_of(board, guard)? {
        Shape::Alone => survey_alone(board, guard, whole, upper),
        Shape::Marked => survey_marked(board, guard, whole, upper),
        Shape::Spilled => survey_spilled(board, guard, whole, upper),
        Shape::Voided => unreachable!(),
    }
}

/// The image where a sector is void: the other one.
fn survey_voided<B: Board>(
    board: &mut B,
    guard: u16,
    whole: &mut [u8],
    upper: &mut [u8],
) -> Result<Survey, SurveyError>
    requires given { CanSurvey (B.sector_bytes board.old) guard whole.old upper.old }
    requires odd { guard % 2 ≡ 1 }
    requires row { B.tells board.old → IsGuardRow (B.words board.old).guard guard }
    ensures finds { FindsImage B.Board board.old result board.new whole.new upper.new }
    ensures calls { ReadsOrRefuses B.Board (FirstBad (B.words board.old))
        board.old result board.new }
{
    let region = first_sector(guard);
    let marks = Marks {
        available: false,
        in_use: true,
        full: false,
    };
    head_at(board, region, marks)?;
    let home = bytes_at(board, region, Mark::InUse, whole)?;
    upper.copy_from_slice(whole);
    Ok(Survey {
        shape: Shape::Voided,
        kept: Kept {
            sector_bytes: board.geometry().sector_bytes,
            guard,
            home,
            other: None,
            completable: false,
        },
    })
}

/// The state that two marks which may stand beside each other tell.
fn shape_of(home: Mark, other: Mark) -> Shape
    requires home { IsTrue (home_mark home) }
    requires other { IsTrue (beside home other) }
    ensures home { mark_of result ≡ home }
    ensures other { other_mark_of result ≡ other }
    ensures even { parity_of result ≡ 0 }
{
    match (home, other) {
        (Mark::InUse, _) => Shape::Alone,
        (_, Mark::Available) => Shape::Marked,
        _ => Shape::Spilled,
    }
}

/// The marks that may stand beside a home with this one.
fn marks_beside(home: Mark) -> Marks
    ensures { result ≡ stands.marks_beside home }
{
    match home {
        Mark::Available => Marks {
            available: false,
            in_use: false,
            full: false,
        },
        Mark::InUse => Marks {
            available: true,
            in_use: false,
            full: false,
        },
        Mark::Full => Marks {
            available: true,
            in_use: true,
            full: false,
        },
    }
}

/// The state that the heads of both sectors tell.
fn heads_of<B: Board>(board: &mut B, guard: u16) -> Result<Shape, SurveyError>
    requires attached { IsSectorSize (B.sector_bytes board.old) }
    requires even { guard % 2 ≡ 0 }
    requires row { B.tells board.old → IsGuardRow (B.words board.old).guard guard }
    ensures even { IfOk result (λ shape. parity_of shape ≡ 0) }
    ensures heads { IfOk result (λ shape. B.tells board.new →
        AreHeads (B.words board.old) guard (mark_of shape) (other_mark_of shape)) }
    ensures calls { ReadsOrRefuses B.Board (FirstBad (B.words board.old))
        board.old result board.new }
{
    let marks = Marks {
        available: false,
        in_use: true,
        full: true,
    };
    let home = head_at(board, first_sector(guard), marks)?;
    let other = head_at(board, second_sector(guard), marks_beside(home))?;
    Ok(shape_of(home, other))
}

/// The logs of home and of the other sector.
#[derive(Clone, Copy, Debug, PartialEq, Eq)]
struct BothLogs {
    home: Log,
    other: Log,
}

/// The logs of both sectors, and the bytes of each alone.
fn logs_of<B: Board>(
    board: &mut B,
    guard: u16,
    first: Mark,
    second: Mark,
    whole: &mut [u8],
    upper: &mut [u8],
) -> Result<BothLogs, SurveyError>
    requires attached { IsSectorSize (B.sector_bytes board.old) }
    requires heads { B.tells board.old → AreHeads (B.words board.old) guard first second }
    requires whole { length whole.old ≡ storage_bytes }
    requires upper { length upper.old ≡ storage_bytes }
    ensures home { IfOk result (λ logs. IsLogIn (B.sector_bytes board.old / 2) logs.home
        × (logs.home.region ≡ first_of guard) × (logs.home.mark ≡ first)) }
    ensures other { IfOk result (λ logs. IsLogIn (B.sector_bytes board.old / 2) logs.other
        × (logs.other.region ≡ second_of guard) × (logs.other.mark ≡ second)) }
    ensures logs { IfOk result (λ logs. B.tells board.new →
        AreLogs (B.words board.old) guard first second logs.home logs.other whole.new upper.new) }
    ensures calls { ReadsOrRefuses B.Board (FirstBad (B.words board.old))
        board.old result board.new }
{
    let home = bytes_at(board, first_sector(guard), first, whole)?;
    let other = bytes_at(board, second_sector(guard), second, upper)?;
    Ok(BothLogs { home, other })
}

/// The image with home in use, and the other sector available.
fn survey_alone<B: Board>(
    board: &mut B,
    guard: u16,
    whole: &mut [u8],
    upper: &mut [u8],
) -> Result<Survey, SurveyError>
    requires given { CanSurvey (B.sector_bytes board.old) guard whole.old upper.old }
    requires even { guard % 2 ≡ 0 }
    requires heads { B.tells board.old → AreHeads (B.words board.old) guard InUse Available }
    ensures finds { FindsImage B.Board board.old result board.new whole.new upper.new }
    ensures calls { ReadsOrRefuses B.Board (FirstBad (B.words board.old))
        board.old result board.new }
{
    let logs = logs_of(board, guard, Mark::InUse, Mark::Available, whole, upper)?;
    upper.copy_from_slice(whole);
    Ok(Survey {
        shape: Shape::Alone,
        kept: Kept {
            sector_bytes: board.geometry().sector_bytes,
            guard,
            home: logs.home,
            other: None,
            completable: false,
        },
    })
}

/// The image with home full, and the other sector available.
fn survey_marked<B: Board>(
    board: &mut B,
    guard: u16,
    whole: &mut [u8],
    upper: &mut [u8],
) -> Result<Survey, SurveyError>
    requires given { CanSurvey (B.sector_bytes board.old) guard whole.old upper.old }
    requires even { guard % 2 ≡ 0 }
    requires heads { B.tells board.old → AreHeads (B.words board.old) guard Full Available }
    ensures finds { FindsImage B.Board board.old result board.new whole.new upper.new }
    ensures calls { ReadsOrRefuses B.Board (FirstBad (B.words board.old))
        board.old result board.new }
{
    let logs = logs_of(board, guard, Mark::Full, Mark::Available, whole, upper)?;
    Ok(Survey {
        shape: Shape::Marked,
        kept: Kept {
            sector_bytes: board.geometry().sector_bytes,
            guard,
            home: logs.home,
            other: None,
            completable: false,
        },
    })
}

/// The image with home full and the other sector in use, where it keeps the room rule.
fn survey_spilled<B: Board>(
    board: &mut B,
    guard: u16,
    whole: &mut [u8],
    upper: &mut [u8],
) -> Result<Survey, SurveyError>
    requires given { CanSurvey (B.sector_bytes board.old) guard whole.old upper.old }
    requires even { guard % 2 ≡ 0 }
    requires heads { B.tells board.old → AreHeads (B.words board.old) guard Full InUse }
    ensures finds { FindsImage B.Board board.old result board.new whole.new upper.new }
    ensures calls { ReadsOrRefuses B.Board (FirstBad (B.words board.old))
        board.old result board.new }
{
    let logs = logs_of(board, guard, Mark::Full, Mark::InUse, whole, upper)?;
    let region = second_sector(guard);
    log_at(board, region, Mark::InUse, whole)?;
    let completable = is_completable(board, logs.other, whole)?;
    let finishing = torn_chunk(completable, logs.other);
    let left = Coverage::of(whole, upper).count_left(finishing) as u32;
    let sector_bytes = board.geometry().sector_bytes;
    if COPY_BYTES * left + 2 * logs.other.end > sector_bytes {
        return Err(SurveyError::Foreign {
            region,
            offset: 0,
            word: 0x5BFE,
        });
    }
    Ok(Survey {
        shape: Shape::Spilled,
        kept: Kept {
            sector_bytes,
            guard,
            home: logs.home,
            other: Some(logs.other),
            completable,
        },
    })
}
