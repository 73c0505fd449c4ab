//! Chunks of 64 bytes, the unit in which a sector is copied: whether one is covered, its bytes, and
//! the chunk of a torn entry.
ghost use Rattle.std.specs.Prelude.{◌≡◌, ◌*◌, ◌<◌, ◌≤◌, ◌+◌, ℕ, true, false, length, slice_index, IfSome, IfNone, None};
ghost use Rattle.sector_log.specs.Storage.{storage_bytes};
ghost use Rattle.flash_traits.specs.Values.{put};
ghost use Rattle.sector_image.specs.Room as room;
ghost use Rattle.flash_traits.specs.Budget.{chunks};
ghost use Rattle.sector_image.specs.Room.{chunk_at, left_to_copy};
ghost use Rattle.sector_image.specs.Fits as fits;

use sector_log::Log;

/// The chunks of the storage.
pub(crate) const CHUNKS: usize = flash_traits::CHUNKS as usize;

/// Whether the other sector's entries alone give a chunk.
pub(crate) fn is_covered(whole: &[u8], upper: &[u8], chunk: usize) -> bool
    requires chunk { chunk < chunks }
    requires whole { length whole.now ≡ storage_bytes }
    requires upper { length upper.now ≡ storage_bytes }
    ensures { result ≡ room.is_covered whole.now upper.now chunk }
{
    let at = 64 * chunk;
    whole[at..at + 64] == upper[at..at + 64]
}

/// The chunk of the torn last entry of a log, where it is known to be completable.
pub fn torn_chunk(completable: bool, log: Log) -> Option<usize>
    ensures { result ≡ fits.torn_chunk completable log }
{
    match log.torn {
        Some(torn) if completable => Some(torn.line as usize / 8),
        _ => None,
    }
}

/// The bytes of a chunk.
pub(crate) fn chunk_of(bytes: &[u8], chunk: usize) -> &[u8]
    requires chunk { chunk < chunks }
    requires bytes { length bytes.now ≡ storage_bytes }
    ensures chunk { result.now ≡ chunk_at bytes.now chunk }
    ensures size { length result.now ≡ 64 }
    ensures small { (k : ℕ) → slice_index result.now k < 256 }
{
    let at = 64 * chunk;
    &bytes[at..at + 64]
}

/// Puts a chunk's bytes into the other list.
pub(crate) fn cover(chunk: usize, whole: &[u8], upper: &mut [u8])
    requires chunk { chunk < chunks }
    requires whole { length whole.now ≡ storage_bytes }
    requires upper { length upper.old ≡ storage_bytes }
    ensures { upper.new ≡ put (64 * chunk) (chunk_at whole.now chunk) upper.old }
{
    let at = 64 * chunk;
    upper[at..at + 64].copy_from_slice(&whole[at..at + 64]);
}
