//! The log of a sector of a legacy image.
ghost use Rattle.std.specs.Prelude.{◌≡◌, ◌+◌, ◌*◌, ◌<◌, ◌≤◌, List, length, take, drop, All, IfOk, IfErr, IfSome, OnOk, MatchOption};
ghost use Rattle.flash_traits.specs.Values.{put};
ghost use Rattle.flash_traits.specs.Words.{halfwords_of};
ghost use Rattle.sector_log.specs.Entries.{Entry};
ghost use Rattle.sector_log.specs.Bytes.{applied};
ghost use Rattle.legacy_image.specs.Logs.{NoLegacyEntry, IsLog, FailsAt};
ghost use Rattle.legacy_image.specs.Steps.{AddsEntry, BadHere, IsFirstOther, IsHeaderAt, IsWholeSector};

use crate::heads::word_at;
use crate::numbers::{LEGACY_BYTES, LEGACY_LINES};
use flash_traits::ERASED;
use sector_log::{Header, header_of};

/// A halfword that breaks the grammar of a log, and its offset in the sector.
#[derive(Clone, Copy, Drop)]
pub(crate) struct BadWord {
    pub(crate) offset: u32,
    pub(crate) word: u16,
}

/// The header of the entry that begins at an offset, or None where none does and the sector may be
/// erased from there on.
fn header_at(sector: &[u8], at: usize) -> Result<Option<Header>, BadWord>
    requires sector { IsWholeSector sector.now }
    requires within { 2 * at ≤ length sector.now }
    ensures next { IfOk result (λ next. MatchOption next
        (NoLegacyEntry (drop at (halfwords_of sector.now))) (IsHeaderAt sector.now at)) }
    ensures bad { IfErr result
        (λ bad. BadHere (halfwords_of sector.now) at bad.offset bad.word) }
{
    if 2 * at == sector.len() {
        return Ok(None);
    }
    let word = word_at(sector, at);
    if word == ERASED {
        return Ok(None);
    }
    let bad = BadWord {
        offset: at as u32,
        word,
    };
    let Some(header) = header_of(word) else {
        return Err(bad);
    };
    if header.line + header.lines as u16 > LEGACY_LINES {
        return Err(bad);
    }
    if sector.len() - 2 * at < 2 + 8 * header.lines as usize {
        return Err(bad);
    }
    Ok(Some(header))
}

/// Puts the content behind a header at its lines.
fn copy_content(sector: &[u8], at: usize, header: Header, into: &mut [u8])
    requires header { IsHeaderAt sector.now at header }
    requires storage { length into.old ≡ LEGACY_BYTES }
    ensures { into.new ≡ put (8 * header.line)
        (take (8 * header.lines) (drop (2 * at + 2) sector.now)) into.old }
{
    let size = 8 * header.lines as usize;
    let first = 8 * header.line as usize;
    let content = 2 * at + 2;
    into[first..first + size].copy_from_slice(&sector[content..content + size]);
}

/// Puts the entry that begins at an offset at its lines where it is valid. The offset behind it, or
/// None where no entry begins there and the sector may be erased from there on.
fn next_entry(sector: &[u8], at: usize, into: &mut [u8]) -> Result<Option<usize>, BadWord>
    requires sector { IsWholeSector sector.now }
    requires within { 2 * at ≤ length sector.now }
    requires storage { length into.old ≡ LEGACY_BYTES }
    ensures every { IfOk result (λ next. IfSome next
        (λ end. (at < end) × (2 * end ≤ length sector.now))) }
    ensures next { IfOk result (λ next. MatchOption next
        ((into.new ≡ into.old) × NoLegacyEntry (drop at (halfwords_of sector.now)))
        (λ end. (e : Entry) × AddsEntry (halfwords_of sector.now) at end into.old into.new e)) }
    ensures bad { IfErr result
        (λ bad. BadHere (halfwords_of sector.now) at bad.offset bad.word) }
    ensures size { length into.new ≡ LEGACY_BYTES }
{
    let Some(header) = header_at(sector, at)? else {
        return Ok(None);
    };
    let end = at + 1 + 4 * header.lines as usize;
    let valid = header.state == 0;
    if valid {
        copy_content(sector, at, header, into);
        Ok(Some(end))
    } else {
        Ok(Some(end))
    }
}

/// Tests that each halfword from an offset on is erased.
fn test_erased(sector: &[u8], from: usize) -> Result<(), BadWord>
    requires sector { IsWholeSector sector.now }
    requires within { 2 * from ≤ length sector.now }
    ensures erased { OnOk result
        (All (λ word. word ≡ ERASED) (drop from (halfwords_of sector.now))) }
    ensures bad { IfErr result
        (λ bad. IsFirstOther (halfwords_of sector.now) from bad.offset bad.word) }
{
    for at in from..sector.len() / 2 {
        let word = word_at(sector, at);
        if word != ERASED {
            return Err(BadWord {
                offset: at as u32,
                word,
            });
        }
    }
    Ok(())
}

/// Puts the valid entries of a sector at their lines, in order.
pub(crate) fn read_log(sector: &[u8], into: &mut [u8]) -> Result<(), BadWord>
    requires sector { IsWholeSector sector.now }
    requires storage { length into.old ≡ LEGACY_BYTES }
    ensures log { OnOk result ((entries : List Entry) × IsLog (halfwords_of sector.now) entries
        × (into.new ≡ applied into.old entries)) }
    ensures bad { IfErr result
        (λ bad. FailsAt (halfwords_of sector.now) bad.offset bad.word) }
    ensures size { length into.new ≡ LEGACY_BYTES }
{
    let mut at = 2;
    while let Some(end) = next_entry(sector, at, into)? {
        at = end;
    }
    test_erased(sector, at)
}
