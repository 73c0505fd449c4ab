//! The sizes of a legacy image.
ghost use Rattle.std.specs.Prelude.{◌≡◌, ◌↔◌, IsTrue};
ghost use Rattle.legacy_image.specs.Sizes.{IsLegacyLength};

/// The lines of a legacy image's storage, of eight bytes each. They stay so many where the storage
/// grows.
pub const LEGACY_LINES: u16 = 1_920;

/// The bytes of a legacy image's storage.
pub const LEGACY_BYTES: usize = 8 * LEGACY_LINES as usize;

/// The bytes of the largest legacy image.
pub const MOST_INPUT: usize = 262_144;

/// Whether a legacy image has so many bytes: two sectors of one of the four sizes.
pub(crate) fn is_legacy_length(bytes: usize) -> bool
    ensures { IsTrue result ↔ IsLegacyLength bytes }
{
    matches!(bytes, 32_768 | 65_536 | 131_072 | 262_144)
}

/// The sizes have these numbers.
pub fn limits()
    ensures { (LEGACY_LINES ≡ 1920) × (LEGACY_BYTES ≡ 15360) × (MOST_INPUT ≡ 262144) }
{}
