//! A legacy image, read into its storage bytes.
ghost use Rattle.std.specs.Prelude.{◌≡◌, ◌++◌, ℕ, List, length, All, IfOk, IfErr, OnOk};
ghost use Rattle.flash_traits.specs.Words.{halfwords_of};
ghost use Rattle.sector_log.specs.Entries.{Entry};
ghost use Rattle.sector_log.specs.Bytes.{applied};
ghost use Rattle.legacy_image.specs.Logs.{HasEntries, HasFailure};
ghost use Rattle.legacy_image.specs.Legacy.{IsLegacy, IsRefusedBy, FailsByOrder, FailsInOrder};
ghost use Rattle.legacy_image.specs.Steps.{AreRead, IsWholeSector, IsEntryError};
ghost use Rattle.legacy_image.specs.Heads as heads;

use crate::heads::{has_log, head_of, is_full, is_pair, word_at};
use crate::log::read_log;
use crate::numbers::{LEGACY_BYTES, MOST_INPUT, is_legacy_length};
use flash_traits::Mark;
use std::alloc::{AllocError, Global};
use thiserror::Error;

/// Why an input is no legacy image, or isn't read.
#[derive(Clone, Copy, Debug, PartialEq, Eq, Drop, Error)]
pub enum LegacyError {
    /// No memory was left.
    #[error("no memory is left")]
    Memory,
    /// The input has so many bytes, which no legacy image has; of a longer one 262,145 are counted.
    #[error("no legacy image has {len} bytes")]
    Length { len: u32 },
    /// The sector begins with a wrong halfword; or sector 1, which begins with this one, doesn't go
    /// with sector 0.
    #[error("sector {sector} begins with a wrong halfword, {word:04X}")]
    Header { sector: u8, word: u16 },
    /// The log of the sector fails first at this halfword, counted from the sector's start.
    #[error("the log of sector {sector} fails at offset {offset}, {word:04X}")]
    Entry { sector: u8, offset: u32, word: u16 },
}

/// Puts the valid entries of a sector that begins so at their lines.
fn read_sector(
    number: u8,
    head: Option<Mark>,
    sector: &[u8],
    into: &mut [u8],
) -> Result<(), LegacyError>
    requires sector { IsWholeSector sector.now }
    requires storage { length into.old ≡ LEGACY_BYTES }
    ensures ok { OnOk result ((entries : List Entry)
        × HasEntries head (halfwords_of sector.now) entries
        × (into.new ≡ applied into.old entries)) }
    ensures err { IfErr result (IsEntryError (λ at place word. (at ≡ number)
        × HasFailure head (halfwords_of sector.now) place word)) }
    ensures size { length into.new ≡ LEGACY_BYTES }
{
    if !has_log(head) {
        return Ok(());
    }
    match read_log(sector, into) {
        Ok(()) => Ok(()),
        Err(bad) => Err(LegacyError::Entry {
            sector: number,
            offset: bad.offset,
            word: bad.word,
        }),
    }
}

/// Reads two sectors, one after the other.
fn read_in_order(
    m: u8,
    a: Option<Mark>,
    first: &[u8],
    n: u8,
    b: Option<Mark>,
    second: &[u8],
    into: &mut [u8],
) -> Result<(), LegacyError>
    requires first { IsWholeSector first.now }
    requires second { IsWholeSector second.now }
    requires storage { length into.old ≡ LEGACY_BYTES }
    ensures ok { OnOk result ((es : List Entry) × (fs : List Entry)
        × HasEntries a (halfwords_of first.now) es × HasEntries b (halfwords_of second.now) fs
        × (into.new ≡ applied into.old (es ++ fs))) }
    ensures err { IfErr result (IsEntryError
        (FailsInOrder m a (halfwords_of first.now) n b (halfwords_of second.now))) }
    ensures size { length into.new ≡ LEGACY_BYTES }
{
    read_sector(m, a, first, into)?;
    read_sector(n, b, second, into)
}

/// Reads both sectors, a full one first.
fn read_both(
    a: Option<Mark>,
    first: &[u8],
    b: Option<Mark>,
    second: &[u8],
    into: &mut [u8],
) -> Result<(), LegacyError>
    requires first { IsWholeSector first.now }
    requires second { IsWholeSector second.now }
    requires storage { length into.old ≡ LEGACY_BYTES }
    ensures ok { OnOk result (AreRead a b (halfwords_of first.now) (halfwords_of second.now)
        into.old into.new) }
    ensures err { IfErr result (IsEntryError (FailsByOrder (heads.is_full b) a b
        (halfwords_of first.now) (halfwords_of second.now))) }
{
    let second_first = is_full(b);
    if second_first {
        read_in_order(1, b, second, 0, a, first, into)
    } else {
        read_in_order(0, a, first, 1, b, second, into)
    }
}

/// The 15,360 storage bytes of a legacy image. Err is the first reason to refuse the input, in the
/// order of the variants after Memory.
pub fn import(alloc: Global, bytes: &[u8]) -> Result<Vec<u8>, LegacyError>
    ensures ok { IfOk result (λ storage. IsLegacy bytes.now storage.items) }
    ensures err { IfErr result (IsRefusedBy bytes.now) }
{
    if !is_legacy_length(bytes.len()) {
        let len = bytes.len().min(MOST_INPUT + 1) as u32;
        return Err(LegacyError::Length { len });
    }
    let (first, second) = bytes.split_at(bytes.len() / 2);
    let a = match head_of(word_at(first, 0), word_at(first, 1)) {
        Ok(head) => head,
        Err(word) => return Err(LegacyError::Header { sector: 0, word }),
    };
    let b = match head_of(word_at(second, 0), word_at(second, 1)) {
        Ok(head) => head,
        Err(word) => return Err(LegacyError::Header { sector: 1, word }),
    };
    if !is_pair(a, b) {
        let word = word_at(second, 0);
        return Err(LegacyError::Header { sector: 1, word });
    }
    let mut storage = match zeros(alloc, LEGACY_BYTES) {
        Ok(zeros) => zeros,
        Err(AllocError) => return Err(LegacyError::Memory),
    };
    read_both(a, first, b, second, &mut storage)?;
    Ok(storage)
}

/// So many zeros.
fn zeros(alloc: Global, len: usize) -> Result<Vec<u8>, AllocError>
    ensures size { IfOk result (λ zeros. length zeros.items ≡ len) }
    ensures zeros { IfOk result (λ zeros. All (λ byte. byte ≡ 0) zeros.items) }
{
    vec![in alloc; 0u8; len]
}
