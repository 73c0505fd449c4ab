//! The sizes and words that the storage and its link have in common.

ghost use Rattle.std.specs.Prelude.{◌≡◌};

/// The lines of the storage, of eight bytes each.
pub const LINES: u16 = 1_920;

/// The chunks of the storage, of eight lines each.
pub const CHUNKS: u32 = LINES as u32 / 8;

/// The halfwords of the guard row.
pub const GUARD_HALFWORDS: u32 = 8_192;

/// The bytes of an entry of eight lines, as the copy of a chunk has.
pub const COPY_BYTES: u32 = 66;

/// A halfword after an erase.
pub const ERASED: u16 = 0xFFFF;

/// The second halfword of a sector's header.
pub const SIGNATURE: u16 = 0x5168;

/// The bytes of the largest datagram.
pub const DATAGRAM_BYTES: usize = 2_048;

/// The bytes of the largest frame.
pub const FRAME_BYTES: usize = 280;

/// How many stations the link tells apart.
pub const STATIONS: u8 = 8;

/// The sizes and words have these numbers.
pub fn limits()
    ensures lines { (LINES ≡ 1920) × (CHUNKS ≡ 240) × (COPY_BYTES ≡ 66) × (GUARD_HALFWORDS ≡ 8192) }
    ensures words { (ERASED ≡ 0xFFFF) × (SIGNATURE ≡ 0x5168) }
    ensures link { (DATAGRAM_BYTES ≡ 2048) × (FRAME_BYTES ≡ 280) × (STATIONS ≡ 8) }
{}
