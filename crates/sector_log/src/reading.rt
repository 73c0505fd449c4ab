//! The scan that reads a sector's log.
ghost use Rattle.std.specs.Prelude.{◌≡◌, ◌∷◌, ◌^◌, ◌+◌, ◌*◌, ◌/◌, ◌<◌, ◌≤◌, List, ℕ, length, take, drop, slice_index, All, Option, IfOk, OnOk, OnErr, IfErr, IfSome, MatchOption};
ghost use Rattle.flash_traits.specs.Words.{halfwords_in, region_length, IsSectorRegion, IsSectorSize, bytes_of};
ghost use Rattle.flash_traits.specs.Causes.{counts_after, told_by};
ghost use Rattle.flash_traits.specs.declared.board.Fault.TheVariants.{Read};
ghost use Rattle.sector_log.specs.declared.log.Log.{Log};
ghost use Rattle.sector_log.specs.Storage.{storage_bytes};
ghost use Rattle.sector_log.specs.Header.{IsLawful, header_word};
ghost use Rattle.sector_log.specs.Errors.{OnWord, OnFault, fault_in};
ghost use Rattle.flash_traits.specs.Calls.{OnlyReads};
ghost use Rattle.sector_log.specs.Sector.{HasHead, FirstBad, IsSector, Splits};
ghost use Rattle.sector_log.specs.Entries.{Entry, NoEntry};
ghost use Rattle.sector_log.specs.Bytes.{applied};
ghost use Rattle.flash_traits.specs.Values.{put};
ghost use Rattle.sector_log.specs.Log.{IsLogOf, IsReadSoFar, IsReadUpTo};
ghost use Rattle.sector_log.specs.Appends.{IsLogIn};
ghost use Rattle.sector_log.specs.Walks.{AddsEntry, BadHere, Walked, WalkedTo, IsFirstOther};
ghost use Rattle.sector_log.specs.Steps.Calls.{ReadsOrFails, ReadsOrRefuses};

use crate::{Header, Log, Marks, Torn, header_of, read_head};
use byteorder::{ByteOrder, LittleEndian};
use flash_traits::{Board, ERASED, Fault, LogError, Mark, Region, read_halfword};

// All marks.
const ANY_MARK: Marks = Marks {
    available: true,
    in_use: true,
    full: true,
};

/// The bytes of as many halfwords from an offset on as the buffer has room for.
fn content_at<B: Board>(
    board: &mut B,
    region: Region,
    at: u32,
    count: u32,
    content: &mut [u8],
) -> Result<(), Fault>
    requires attached { IsSectorSize (B.sector_bytes board.old) }
    requires within { at + count ≤ region_length (B.sector_bytes board.old) region }
    requires room { length content.old ≡ 2 * count }
    requires few { count ≤ 32 }
    ensures content { OnOk result (B.tells board.new
        → content.new ≡ bytes_of (take count (drop at (halfwords_in (B.words board.old) region)))) }
    ensures calls { ReadsOrFails B.Board board.old result board.new }
{
    for i in 0..count {
        let word = read_halfword(board, region, at + i)?;
        let place = 2 * i as usize;
        LittleEndian::write_u16(&mut content[place..place + 2], word);
    }
    Ok(())
}

/// Puts the content behind a header at its lines.
fn copy_content<B: Board>(
    board: &mut B,
    region: Region,
    at: u32,
    header: Header,
    into: &mut [u8],
) -> Result<(), Fault>
    requires attached { IsSectorSize (B.sector_bytes board.old) }
    requires lawful { IsLawful header }
    requires within { at + 4 * header.lines ≤ region_length (B.sector_bytes board.old) region }
    requires storage { length into.old ≡ storage_bytes }
    ensures copied { OnOk result (B.tells board.new
        → into.new ≡ put (8 * header.line)
        (bytes_of (take (4 * header.lines)
        (drop at (halfwords_in (B.words board.old) region)))) into.old) }
    ensures size { length into.new ≡ storage_bytes }
    ensures err { OnErr result (into.new ≡ into.old) }
    ensures calls { ReadsOrFails B.Board board.old result board.new }
{
    let mut content = [0u8; 64];
    let size = 8 * header.lines as usize;
    content_at(
        board,
        region,
        at,
        4 * header.lines as u32,
        &mut content[..size],
    )?;
    let first = 8 * header.line as usize;
    into[first..first + size].copy_from_slice(&content[..size]);
    Ok(())
}

/// The header of the entry that begins at a log's end, or None where none does and the sector may
/// be erased from there on.
fn next_header<B: Board>(board: &mut B, len: u32, log: Log) -> Result<Option<Header>, LogError>
    requires attached { IsSectorSize (B.sector_bytes board.old) }
    requires len { len ≡ region_length (B.sector_bytes board.old) log.region }
    requires within { log.end ≤ len }
    ensures fits { IfOk result
        (λ next. IfSome next (λ header. IsLawful header × (log.end + 1 + 4 * header.lines ≤ len))) }
    ensures next { IfOk result
        (λ next. B.tells board.new
        → MatchOption next (NoEntry (drop log.end (halfwords_in (B.words board.old) log.region)))
        (λ header. header_word header ≡ slice_index
        (halfwords_in (B.words board.old) log.region) log.end)) }
    ensures calls { ReadsOrRefuses B.Board
        (BadHere (halfwords_in (B.words board.old) log.region) log.end)
        board.old result board.new }
{
    if log.end == len {
        return Ok(None);
    }
    let word = read_halfword(board, log.region, log.end)?;
    if word == ERASED {
        return Ok(None);
    }
    let bad = LogError::Word {
        offset: log.end,
        word,
    };
    let Some(header) = header_of(word) else {
        return Err(bad);
    };
    if len - log.end <= 4 * header.lines as u32 {
        return Err(bad);
    }
    Ok(Some(header))
}

/// The log with the entry that begins at its end, or None where none does and the sector may be
/// erased from there on.
fn next_entry<B: Board>(
    board: &mut B,
    len: u32,
    log: Log,
    into: &mut [u8],
) -> Result<Option<Log>, LogError>
    requires attached { IsSectorSize (B.sector_bytes board.old) }
    requires len { len ≡ region_length (B.sector_bytes board.old) log.region }
    requires log { IsLogIn len log }
    requires behind { 2 ≤ log.end }
    requires storage { length into.old ≡ storage_bytes }
    ensures every { IfOk result
        (λ next. IfSome next
        (λ new. (log.end < new.end) × IsLogIn len new × (new.region ≡ log.region)
        × (new.mark ≡ log.mark))) }
    ensures next { IfOk result (λ next. MatchOption next
        ((into.new ≡ into.old)
        × (B.tells board.new
        → NoEntry (drop log.end (halfwords_in (B.words board.old) log.region))))
        (λ new. B.tells board.new → (e : Entry)
        × AddsEntry (halfwords_in (B.words board.old) log.region) log new into.old into.new e)) }
    ensures size { length into.new ≡ storage_bytes }
    ensures err { OnErr result (into.new ≡ into.old) }
    ensures calls { ReadsOrRefuses B.Board
        (BadHere (halfwords_in (B.words board.old) log.region) log.end)
        board.old result board.new }
{
    let Some(header) = next_header(board, len, log)? else {
        return Ok(None);
    };
    let end = log.end + 1 + 4 * header.lines as u32;
    let valid = header.state == 0;
    if valid {
        copy_content(board, log.region, log.end + 1, header, into)?;
        Ok(Some(Log {
            end,
            torn: None,
            valid: log.valid + 1,
            ..log
        }))
    } else {
        let torn = Torn {
            at: log.end,
            line: header.line,
            lines: header.lines,
        };
        Ok(Some(Log {
            end,
            torn: Some(torn),
            gaps: log.gaps + 1,
            ..log
        }))
    }
}

/// The log of the entries behind a mark, up to the first place where none stands.
fn entries_of<B: Board>(
    board: &mut B,
    len: u32,
    region: Region,
    mark: Mark,
    into: &mut [u8],
) -> Result<Log, LogError>
    requires attached { IsSectorSize (B.sector_bytes board.old) }
    requires sector { IsSectorRegion region }
    requires len { len ≡ region_length (B.sector_bytes board.old) region }
    requires storage { length into.old ≡ storage_bytes }
    ensures every { IfOk result
        (λ log. IsLogIn len log × (log.region ≡ region) × (log.mark ≡ mark)) }
    ensures log { IfOk result
        (λ log. B.tells board.new → NoEntry (drop log.end (halfwords_in (B.words board.old) region))
        × (entries : List Entry)
        × Walked (halfwords_in
        (B.words board.old) region) region mark log into.old into.new entries) }
    ensures size { length into.new ≡ storage_bytes }
    ensures err { OnErr result (B.tells board.new → (log : Log) × (entries : List Entry)
        × Walked (halfwords_in
        (B.words board.old) region) region mark log into.old into.new entries) }
    ensures calls { ReadsOrRefuses B.Board
        (WalkedTo (halfwords_in (B.words board.old) region) region mark into.old into.new)
        board.old result board.new }
{
    let mut log = Log {
        region,
        mark,
        end: 2,
        torn: None,
        valid: 0,
        gaps: 0,
    };
    while let Some(next) = next_entry(board, len, log, into)? {
        log = next;
    }
    Ok(log)
}

/// Tests that each halfword from an offset on is erased.
fn test_erased<B: Board>(board: &mut B, len: u32, region: Region, from: u32) -> Result<(), LogError>
    requires attached { IsSectorSize (B.sector_bytes board.old) }
    requires len { len ≡ region_length (B.sector_bytes board.old) region }
    requires within { from ≤ len }
    ensures erased { OnOk result (B.tells board.new
        → All (λ word. word ≡ 65535) (drop from (halfwords_in (B.words board.old) region))) }
    ensures calls { ReadsOrRefuses B.Board
        (IsFirstOther (halfwords_in (B.words board.old) region) from)
        board.old result board.new }
{
    for at in from..len {
        let word = read_halfword(board, region, at)?;
        if word != ERASED {
            return Err(LogError::Word { offset: at, word });
        }
    }
    Ok(())
}

/// The log behind a mark, up to the end of its entries. Behind an available mark there are none.
fn log_behind<B: Board>(
    board: &mut B,
    len: u32,
    region: Region,
    mark: Mark,
    into: &mut [u8],
) -> Result<Log, LogError>
    requires attached { IsSectorSize (B.sector_bytes board.old) }
    requires sector { IsSectorRegion region }
    requires len { len ≡ region_length (B.sector_bytes board.old) region }
    requires head { B.tells board.old → HasHead (halfwords_in (B.words board.old) region) mark }
    requires storage { length into.old ≡ storage_bytes }
    ensures every { IfOk result
        (λ log. IsLogIn len log × (log.region ≡ region) × (log.mark ≡ mark)) }
    ensures log { IfOk result (λ log. B.tells board.new → (entries : List Entry)
        × Splits (halfwords_in (B.words board.old) region) mark entries
        (drop log.end (halfwords_in (B.words board.old) region))
        × IsLogOf log region mark entries × (into.new ≡ applied into.old entries)) }
    ensures before { IfErr result (λ e. OnWord e (λ place word. B.tells board.new →
        IsReadUpTo (halfwords_in (B.words board.old) region) place into.old into.new)) }
    ensures read { OnErr result (B.tells board.new
        → IsReadSoFar (halfwords_in (B.words board.old) region) into.old into.new) }
    ensures size { length into.new ≡ storage_bytes }
    ensures calls { ReadsOrRefuses B.Board
        (FirstBad (halfwords_in (B.words board.old) region)) board.old result board.new }
{
    match mark {
        Mark::Available => Ok(Log {
            region,
            mark,
            end: 2,
            torn: None,
            valid: 0,
            gaps: 0,
        }),
        Mark::InUse | Mark::Full => entries_of(board, len, region, mark, into),
    }
}

/// Reads the log of a sector, and puts its valid entries at their lines of the storage, in order.
///
/// A Word is the first place where the sector breaks the grammar. `into` then holds the entries
/// before it, and after a Fault those that were read. Each halfword is read at most once
/// (not proved: no board counts its reads).
pub fn scan<B: Board>(board: &mut B, region: Region, into: &mut [u8]) -> Result<Log, LogError>
    requires attached { IsSectorSize (B.sector_bytes board.old) }
    requires sector { IsSectorRegion region }
    requires storage { length into.old ≡ storage_bytes }

    // on every board
    ensures every { IfOk result
        (λ log. IsLogIn (region_length (B.sector_bytes board.old) region) log
        × (log.region ≡ region)) }
    ensures size { length into.new ≡ storage_bytes }

    // where the words are told: the sector is of the grammar, or fails first at this place
    ensures log { IfOk result
        (λ log. B.tells board.new → (entries : List Entry)
        × IsSector (halfwords_in (B.words board.old) region) log.mark entries
        × IsLogOf log region log.mark entries × (into.new ≡ applied into.old entries)) }
    ensures word { IfErr result
        (λ e. OnWord e (λ place word. B.tells board.new
        → FirstBad (halfwords_in (B.words board.old) region) place word)) }
    ensures before { IfErr result (λ e. OnWord e (λ place word. B.tells board.new →
        IsReadUpTo (halfwords_in (B.words board.old) region) place into.old into.new)) }
    ensures read { OnErr result (B.tells board.new
        → IsReadSoFar (halfwords_in (B.words board.old) region) into.old into.new) }
    ensures fault { IfErr result (λ e. OnFault e (λ kind. kind ≡ Read)) }
    ensures counts { B.faults board.new
        ≡ counts_after (told_by fault_in result) (B.faults board.old) }
    ensures reads { OnlyReads B.Board board.old board.new }
{
    let len = board.geometry().sector_bytes / 2;
    let mark = read_head(board, region, ANY_MARK)?;
    let log = log_behind(board, len, region, mark, into)?;
    test_erased(board, len, region, log.end)?;
    Ok(log)
}
