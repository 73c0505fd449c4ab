//! Entries that are appended, and torn ones that are completed.
ghost use Rattle.std.specs.Prelude.{◌≡◌, ◌+◌, ◌*◌, ◌/◌, ◌<◌, ◌≤◌, ℕ, length, IfOk, OnOk, IfErr, IsSome, IfSome};
ghost use Rattle.flash_traits.specs.declared.board.Fault.TheVariants.{Flash};
ghost use Rattle.flash_traits.specs.declared.board.Mark.TheVariants.{InUse};
ghost use Rattle.flash_traits.specs.Words.{region_length, IsSectorSize, Programs, ProgramMayLeave};
ghost use Rattle.flash_traits.specs.Losses.{ByResult};
ghost use Rattle.flash_traits.specs.Calls.{Changes, ErasesNothing};
ghost use Rattle.flash_traits.specs.Causes.{HasCause};
ghost use Rattle.sector_log.specs.Appends.{AppendMayLeave, Appends, appended, FinishMayLeave, Finishes, finished, AreWholeLines, IsLogIn};
ghost use Rattle.flash_traits.specs.Counts.{raised_by};
ghost use Rattle.sector_log.specs.Steps.Calls.{OnlyPrograms};
ghost use Rattle.sector_log.specs.Fills.{FillMayLeave, Fills, CompleteMayLeave, Completes};

use crate::{Header, Log, word_of};
use byteorder::{ByteOrder, LittleEndian};
use flash_traits::{Board, Fault, Region, program_halfword};

/// Programs the content of a torn entry, in ascending order.
fn fill<B: Board>(board: &mut B, region: Region, at: u32, bytes: &[u8]) -> Result<(), Fault>
    requires attached { IsSectorSize (B.sector_bytes board.old) }
    requires inside { at + length bytes.now / 2 ≤ region_length (B.sector_bytes board.old) region }
    requires few { length bytes.now ≤ 64 }
    ensures changes { Changes B.Board board.old board.new (FillMayLeave region at bytes.now)
        (ByResult result (Fills region at bytes.now) (FillMayLeave region at bytes.now)) }
    ensures calls { OnlyPrograms B.Board (length bytes.now / 2) board.old result board.new }
{
    for i in 0..bytes.len() / 2 {
        let word = LittleEndian::read_u16(&bytes[2 * i..]);
        program_halfword(board, region, at + i as u32, word)?;
    }
    Ok(())
}

/// Programs the content of a torn entry, and then its header as valid.
fn complete<B: Board>(
    board: &mut B,
    region: Region,
    at: u32,
    first: u16,
    bytes: &[u8],
) -> Result<(), Fault>
    requires attached { IsSectorSize (B.sector_bytes board.old) }
    requires lines { AreWholeLines first bytes.now }
    requires inside { at + 1 + length bytes.now / 2 ≤ region_length
        (B.sector_bytes board.old) region }
    ensures changes { Changes B.Board board.old board.new
        (CompleteMayLeave region at first bytes.now)
        (ByResult result (Completes region at first bytes.now)
        (CompleteMayLeave region at first bytes.now)) }
    ensures calls { OnlyPrograms B.Board (1 + length bytes.now / 2) board.old result board.new }
{
    fill(board, region, at + 1, bytes)?;
    let valid = word_of(Header {
        state: 0,
        line: first,
        lines: (bytes.len() / 8) as u8,
    });
    program_halfword(board, region, at, valid)
}

/// Appends an entry of 1 to 8 whole lines behind a log in use: its header as writing, its content,
/// its header as valid.
///
/// A loss inside leaves the log without the entry, with it torn such that it can still be
/// completed, or with it valid.
pub fn append<B: Board>(board: &mut B, log: Log, first: u16, bytes: &[u8]) -> Result<Log, Fault>
    requires attached { IsSectorSize (B.sector_bytes board.old) }
    requires log { IsLogIn (region_length (B.sector_bytes board.old) log.region) log }
    requires in_use { log.mark ≡ InUse }
    requires lines { AreWholeLines first bytes.now }
    requires room { log.end + 1 + length bytes.now / 2 ≤ region_length
        (B.sector_bytes board.old) log.region }
    ensures log { IfOk result (λ new. new ≡ appended log (length bytes.now / 8)) }
    ensures changes { Changes B.Board board.old board.new (AppendMayLeave log first bytes.now)
        (ByResult result (Appends log first bytes.now) (AppendMayLeave log first bytes.now)) }
    ensures erases { ErasesNothing B.Board board.old board.new }
    ensures programs { OnOk result
        ((B.moment board.new).programs ≡ raised_by (2 + length bytes.now / 2)
        (B.moment board.old).programs) }
    ensures at_most { (B.moment board.new).programs ≤ raised_by (2 + length bytes.now / 2)
        (B.moment board.old).programs }
    ensures cause { HasCause Flash (B.faults board.old) (B.faults board.new) result }
    ensures kind { IfErr result (λ kind. kind ≡ Flash) }
{
    let lines = (bytes.len() / 8) as u8;
    let writing = word_of(Header {
        state: 1,
        line: first,
        lines,
    });
    program_halfword(board, log.region, log.end, writing)?;
    complete(board, log.region, log.end, first, bytes)?;
    Ok(Log {
        end: log.end + 1 + 4 * lines as u32,
        torn: None,
        valid: log.valid + 1,
        ..log
    })
}

/// Completes the torn last entry with these bytes, as many as it has: its content, and then its
/// header as valid.
///
/// Where each halfword of the entry can still become the new one (`torn_fits`), a loss inside
/// leaves the entry torn such that it still can be completed, or valid.
pub fn finish_torn<B: Board>(board: &mut B, log: Log, bytes: &[u8]) -> Result<Log, Fault>
    requires attached { IsSectorSize (B.sector_bytes board.old) }
    requires log { IsLogIn (region_length (B.sector_bytes board.old) log.region) log }
    requires torn { IsSome log.torn }
    requires size { IfSome log.torn (λ torn. length bytes.now ≡ 8 * torn.lines) }
    ensures log { IfOk result (λ new. new ≡ finished log) }
    ensures changes { Changes B.Board board.old board.new (FinishMayLeave log bytes.now)
        (ByResult result (Finishes log bytes.now) (FinishMayLeave log bytes.now)) }
    ensures erases { ErasesNothing B.Board board.old board.new }
    ensures programs { OnOk result
        ((B.moment board.new).programs ≡ raised_by (1 + length bytes.now / 2)
        (B.moment board.old).programs) }
    ensures at_most { (B.moment board.new).programs ≤ raised_by (1 + length bytes.now / 2)
        (B.moment board.old).programs }
    ensures cause { HasCause Flash (B.faults board.old) (B.faults board.new) result }
    ensures kind { IfErr result (λ kind. kind ≡ Flash) }
{
    let Some(torn) = log.torn else { unreachable!() };
    complete(board, log.region, torn.at, torn.line, bytes)?;
    Ok(Log {
        torn: None,
        valid: log.valid + 1,
        gaps: log.gaps - 1,
        ..log
    })
}
