//! The storage in lines of eight bytes, and a write of one line.
ghost use Rattle.std.specs.Prelude.{◌≡◌, ◌<◌, length};
ghost use Rattle.storage_lines.specs.Lines.{put_line};

use arrayvec::ArrayVec;

/// The lines of the storage, of 8 bytes each.
pub const LINES: usize = 1920;

/// The bytes of the storage.
pub const STORAGE_BYTES: usize = 8 * LINES;

/// The most line writes of one change.
pub const BATCH_LINES: usize = 64;

/// The sizes have these numbers.
pub fn sizes()
    ensures { (LINES ≡ 1920) × (STORAGE_BYTES ≡ 15360) × (BATCH_LINES ≡ 64) }
{}

/// Eight bytes for a line, which stands at eight times its number.
#[derive(Clone, Copy, Debug, PartialEq, Eq, Default, Drop)]
pub struct LineWrite {
    pub line: u16,
    pub bytes: [u8; 8],
}

/// The writes of a change, in the order in which they are made.
pub type Batch = ArrayVec<LineWrite, BATCH_LINES>;

/// Puts the bytes of a write at its line.
pub fn apply(write: &LineWrite, bytes: &mut [u8])
    requires line { write.now.line < LINES }
    requires size { length bytes.old ≡ STORAGE_BYTES }
    ensures { bytes.new ≡ put_line bytes.old write.now }
{
    let at = 8 * write.line as usize;
    bytes[at..at + 8].copy_from_slice(&write.bytes);
}
