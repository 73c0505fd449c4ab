//! A legacy image, made of storage bytes.
ghost use Rattle.std.specs.Prelude.{◌≡◌, ◌/◌, ◌%◌, ◌<◌, ◌++◌, ◌∷◌, length, IfOk, OnOk};
ghost use Rattle.flash_traits.specs.Words.{bytes_of};
ghost use Rattle.sector_log.specs.Entries.{words_of_entries};
ghost use Rattle.legacy_image.specs.Sizes.{IsLegacySectorSize};
ghost use Rattle.legacy_image.specs.Steps as steps;
ghost use Rattle.legacy_image.specs.Made as made;
ghost use Rattle.legacy_image.specs.Made.{IsMade};

use crate::numbers::{LEGACY_BYTES, LEGACY_LINES};
use std::alloc::{AllocError, Global};

/// The chunks of a legacy image's storage, of 64 bytes each.
const LEGACY_CHUNKS: usize = LEGACY_LINES as usize / 8;

/// The bytes of a sector's mark as in use and as available, with 5168 behind it.
const IN_USE: [u8; 4] = [0xFE, 0x5B, 0x68, 0x51];

const AVAILABLE: [u8; 4] = [0xFF, 0x5B, 0x68, 0x51];

/// Appends a valid entry of eight lines from a chunk's first one on.
fn push_entry(chunk: usize, bytes: &[u8], image: &mut Vec<u8>) -> Result<(), AllocError>
    requires { chunk < made.legacy_chunks }
    ensures { OnOk result (image.new.items ≡ image.old.items
        ++ (steps.entry_head chunk % 256 ∷ steps.entry_head chunk / 256 ∷ bytes.now)) }
{
    let header = 0xE000 + 32 * chunk as u16;
    image.push((header % 0x100) as u8)?;
    image.push((header / 0x100) as u8)?;
    image.extend_from_slice(bytes)
}

/// Appends a chunk as a valid entry of eight lines, unless it is all zeros.
fn push_chunk(storage: &[u8], chunk: usize, image: &mut Vec<u8>) -> Result<(), AllocError>
    requires storage { length storage.now ≡ LEGACY_BYTES }
    requires chunk { chunk < made.legacy_chunks }
    ensures { OnOk result (image.new.items ≡ image.old.items
        ++ bytes_of (words_of_entries (made.entry_in storage.now chunk))) }
{
    let bytes = &storage[64 * chunk..64 * chunk + 64];
    if bytes == [0; 64].as_slice() {
        return Ok(());
    }
    push_entry(chunk, bytes, image)
}

/// The legacy image of these 15,360 storage bytes, in sectors of so many bytes: sector 0 in use
/// with a valid entry of eight lines for each chunk that isn't all zeros, sector 1 available.
pub fn export(alloc: Global, storage: &[u8], sector: u32) -> Result<Vec<u8>, AllocError>
    requires storage { length storage.now ≡ LEGACY_BYTES }
    requires sector { IsLegacySectorSize sector }
    ensures made { IfOk result (λ image. IsMade storage.now sector image.items) }
{
    let size = sector as usize;
    let mut image = Vec::with_capacity(alloc, 2 * size)?;
    image.extend_from_slice(&IN_USE)?;
    for chunk in 0..LEGACY_CHUNKS {
        push_chunk(storage, chunk, &mut image)?;
    }
    image.resize(size, 0xFF)?;
    image.extend_from_slice(&AVAILABLE)?;
    image.resize(2 * size, 0xFF)?;
    Ok(image)
}
