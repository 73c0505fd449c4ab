//! What the sectors of a legacy image begin with.
ghost use Rattle.std.specs.Prelude.{◌≡◌, ◌+◌, ◌*◌, ◌<◌, ◌≤◌, length, slice_index};
ghost use Rattle.flash_traits.specs.Words.{halfwords_of};
ghost use Rattle.legacy_image.specs.Heads as heads;

use byteorder::{ByteOrder, LittleEndian};
use flash_traits::{ERASED, Mark, SIGNATURE};

/// The halfword at an offset.
pub(crate) fn word_at(sector: &[u8], at: usize) -> u16
    requires inside { 2 * at + 1 < length sector.now }
    ensures { result ≡ slice_index (halfwords_of sector.now) at }
{
    LittleEndian::read_u16(&sector[2 * at..2 * at + 2])
}

/// A sector is blank, here None, or has a mark with 5168 behind it. Err is the first of its two
/// halfwords that is wrong.
pub(crate) fn head_of(first: u16, second: u16) -> Result<Option<Mark>, u16>
    ensures { result ≡ heads.head_of first second }
{
    let (head, wanted) = match first {
        ERASED => (None, ERASED),
        0x5BFF => (Some(Mark::Available), SIGNATURE),
        0x5BFE => (Some(Mark::InUse), SIGNATURE),
        0x5BFC => (Some(Mark::Full), SIGNATURE),
        _ => return Err(first),
    };
    if second == wanted {
        Ok(head)
    } else {
        Err(second)
    }
}

/// Whether entries stand behind this head.
pub(crate) fn has_log(head: Option<Mark>) -> bool
    ensures { result ≡ heads.has_log head }
{
    matches!(head, Some(Mark::InUse | Mark::Full))
}

/// Whether the sector is full.
pub(crate) fn is_full(head: Option<Mark>) -> bool
    ensures { result ≡ heads.is_full head }
{
    matches!(head, Some(Mark::Full))
}

/// Whether a sector in use stands beside one without entries, or a full one beside one that isn't
/// full.
fn goes_beside(head: Option<Mark>, other: Option<Mark>) -> bool
    ensures { result ≡ heads.goes_beside head other }
{
    match head {
        Some(Mark::InUse) => !has_log(other),
        Some(Mark::Full) => !is_full(other),
        None | Some(Mark::Available) => false,
    }
}

/// Whether two sectors may stand side by side.
pub(crate) fn is_pair(a: Option<Mark>, b: Option<Mark>) -> bool
    ensures { result ≡ heads.is_pair a b }
{
    goes_beside(a, b) || goes_beside(b, a)
}
