//! The copy of an image in memory, as the bytes of its file.
ghost use Rattle.std.specs.Prelude.{◌≡◌, ◌≤◌, ◌<◌, ◌+◌, ◌*◌, ℕ, length, slice_index, OnOk};
ghost use Rattle.flash_traits.specs.declared.board.Fault.TheVariants.{Read};
ghost use Rattle.flash_traits.specs.Words.{IsSectorSize, halfwords_in, region_length};
ghost use Rattle.flash_traits.specs.Causes.{FailsBy};
ghost use Rattle.flash_traits.specs.Calls.{OnlyReads};
ghost use Rattle.script_board.specs.Image.{halfword_at, halfwords_from, words_of};
ghost use Rattle.script_board.specs.declared.image.TheConstants.{IMAGE_BYTES};

use flash_traits::{Board, Fault, GUARD_HALFWORDS, Region, read_halfword};

/// Puts a halfword where its low byte is this one.
fn put(bytes: &mut [u8], at: usize, word: u16)
    requires { at + 1 < length bytes.old }
    ensures word { halfword_at bytes.new at ≡ word }
    ensures before { (j : ℕ) → j < at → slice_index bytes.new j ≡ slice_index bytes.old j }
{
    bytes[at] = (word % 256) as u8;
    bytes[at + 1] = (word / 256) as u8;
}

/// Copies the halfwords of a region, so many, to the bytes from `start` on.
fn copy_region<B: Board>(
    board: &mut B,
    region: Region,
    count: u32,
    start: usize,
    bytes: &mut [u8],
) -> Result<(), Fault>
    requires attached { IsSectorSize (B.sector_bytes board.old) }
    requires count { count ≡ region_length (B.sector_bytes board.old) region }
    requires room { start + 2 * count ≤ length bytes.old }
    ensures copied { OnOk result (B.tells board.new → halfwords_from bytes.new start count
        ≡ halfwords_in (B.words board.old) region) }
    ensures before { (j : ℕ) → j < start → slice_index bytes.new j ≡ slice_index bytes.old j }
    ensures reads { OnlyReads B.Board board.old board.new }
    ensures fails { FailsBy Read (B.faults board.old) (B.faults board.new) result }
{
    for at in 0..count {
        let word = read_halfword(board, region, at)?;
        put(bytes, start + 2 * at as usize, word);
    }
    Ok(())
}

/// Copies the words of the image that is attached.
pub(crate) fn copy_image<B: Board>(board: &mut B, bytes: &mut [u8]) -> Result<(), Fault>
    requires attached { IsSectorSize (B.sector_bytes board.old) }
    requires whole { length bytes.old ≡ IMAGE_BYTES }
    ensures copied { OnOk result (B.tells board.new
        → words_of (B.sector_bytes board.old) bytes.new ≡ B.words board.old) }
    ensures reads { OnlyReads B.Board board.old board.new }
    ensures fails { FailsBy Read (B.faults board.old) (B.faults board.new) result }
{
    let sector_bytes = board.geometry().sector_bytes;
    let halfwords = sector_bytes / 2;
    copy_region(board, Region::S0, halfwords, 0, bytes)?;
    copy_region(board, Region::S1, halfwords, sector_bytes as usize, bytes)?;
    copy_region(
        board,
        Region::Guard,
        GUARD_HALFWORDS,
        2 * sector_bytes as usize,
        bytes,
    )
}
