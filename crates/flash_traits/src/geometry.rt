//! The sizes of a sector and of an image, one for the other.
ghost use Rattle.std.specs.Prelude.{◌≡◌, ◌≢◌, ℕ, IfNone, IfSome};
ghost use Rattle.std.specs.Bool.{OnTrue};
ghost use Rattle.flash_traits.specs.Words.{IsSectorSize, is_size, image_length};

use crate::GUARD_HALFWORDS;

/// Whether a sector has so many bytes.
pub fn is_sector_size(bytes: u32) -> bool
    ensures yes { OnTrue result (IsSectorSize bytes) }
    ensures test { result ≡ is_size bytes }
{
    matches!(bytes, 16_384 | 32_768 | 65_536 | 131_072)
}

/// The sector size of an image of so many bytes: sector 0, sector 1 and the guard row.
pub fn size_of_image(bytes: u64) -> Option<u32>
    ensures some { IfSome result (λ size. IsSectorSize size × (bytes ≡ image_length size)) }
    ensures none { IfNone result ((size : ℕ) → IsSectorSize size → bytes ≢ image_length size) }
{
    let both_sectors = bytes.saturating_sub(2 * GUARD_HALFWORDS as u64);
    match both_sectors {
        32_768 => Some(16_384),
        65_536 => Some(32_768),
        131_072 => Some(65_536),
        262_144 => Some(131_072),
        _ => None,
    }
}
