//! What is found in the words of a board, region by region.
ghost use Rattle.std.specs.Prelude.{◌≡◌, length, IfOk};
ghost use Rattle.flash_traits.specs.Words.{halfwords_in, IsSectorRegion, IsSectorSize};
ghost use Rattle.sector_log.specs.Storage.{storage_bytes};
ghost use Rattle.image_report.specs.Reports.{IsGuardFound, IsSectorFound, IsStateFound, IsFound};
ghost use Rattle.image_report.specs.Reports.{void_in};
ghost use Rattle.image_report.specs.Steps.Looks.{Looks};

use flash_traits::{Board, Fault, LogError, Region};
use guard_row::{GuardError, count, void_of};
use sector_image::{Images, Shape, SurveyError, survey};
use sector_log::{Log, scan};

/// What the guard row says.
#[derive(Clone, Copy, Debug, PartialEq, Eq)]
pub(crate) enum GuardFound {
    Count(u16),
    /// The first failing place, with its offset in halfwords.
    Foreign { offset: u32, word: u16 },
}

/// What a sector is, judged by itself.
#[derive(Clone, Copy, Debug, PartialEq, Eq)]
pub(crate) enum SectorFound {
    /// Its words mean nothing.
    Void,
    Log(Log),
    /// The first failing place, with its offset in halfwords.
    Foreign { offset: u32, word: u16 },
}

/// What is found in the words of an image.
#[derive(Clone, Copy, Debug, PartialEq, Eq)]
pub(crate) struct Findings {
    pub(crate) guard: GuardFound,
    pub(crate) s0: SectorFound,
    pub(crate) s1: SectorFound,
    /// The state, or None where the words are in none of the four.
    pub(crate) state: Option<Shape>,
}

/// The guard row by itself.
fn guard_found<B: Board>(board: &mut B) -> Result<GuardFound, Fault>
    requires attached { IsSectorSize (B.sector_bytes board.old) }
    ensures found { IfOk result (λ guard. B.tells board.new
        → IsGuardFound (B.words board.old).guard guard) }
    ensures looks { Looks B.Board board.old board.new result }
{
    match count(board) {
        Ok(count) => Ok(GuardFound::Count(count)),
        Err(GuardError::Word { offset, word }) => Ok(GuardFound::Foreign { offset, word }),
        Err(GuardError::Fault(kind)) => Err(kind),
    }
}

/// The void sector, where there is one.
fn void_in(guard: GuardFound) -> Option<Region>
    ensures { result ≡ void_in guard }
{
    match guard {
        GuardFound::Count(count) => void_of(count),
        GuardFound::Foreign { .. } => None,
    }
}

/// A sector by itself. A void one isn't looked at.
fn sector_found<B: Board>(
    board: &mut B,
    void: Option<Region>,
    region: Region,
    buffer: &mut [u8],
) -> Result<SectorFound, Fault>
    requires attached { IsSectorSize (B.sector_bytes board.old) }
    requires sector { IsSectorRegion region }
    requires storage { length buffer.old ≡ storage_bytes }
    ensures found { IfOk result (λ sector. B.tells board.new
        → IsSectorFound void region (halfwords_in (B.words board.old) region) sector) }
    ensures looks { Looks B.Board board.old board.new result }
{
    if void == Some(region) {
        return Ok(SectorFound::Void);
    }
    match scan(board, region, buffer) {
        Ok(log) => Ok(SectorFound::Log(log)),
        Err(LogError::Word { offset, word }) => Ok(SectorFound::Foreign { offset, word }),
        Err(LogError::Fault(kind)) => Err(kind),
    }
}

/// The state of the whole image.
fn state_found<B: Board>(board: &mut B, images: &mut Images) -> Result<Option<Shape>, Fault>
    requires attached { IsSectorSize (B.sector_bytes board.old) }
    ensures found { IfOk result (λ state. B.tells board.new
        → IsStateFound (B.words board.old) state) }
    ensures looks { Looks B.Board board.old board.new result }
{
    match survey(board, images) {
        Ok(survey) => Ok(Some(survey.shape)),
        Err(SurveyError::Foreign { .. }) => Ok(None),
        Err(SurveyError::Fault(kind)) => Err(kind),
    }
}

/// What is found in the words of a board.
pub(crate) fn findings_of<B: Board>(
    board: &mut B,
    images: &mut Images,
    buffer: &mut [u8],
) -> Result<Findings, Fault>
    requires attached { IsSectorSize (B.sector_bytes board.old) }
    requires storage { length buffer.old ≡ storage_bytes }
    ensures found { IfOk result (λ findings. B.tells board.new
        → IsFound (B.words board.old) findings) }
    ensures looks { Looks B.Board board.old board.new result }
{
    let guard = guard_found(board)?;
    let void = void_in(guard);
    let s0 = sector_found(board, void, Region::S0, buffer)?;
    let s1 = sector_found(board, void, Region::S1, buffer)?;
    let state = state_found(board, images)?;
    Ok(Findings {
        guard,
        s0,
        s1,
        state,
    })
}
