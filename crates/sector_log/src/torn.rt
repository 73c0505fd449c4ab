//! Whether a torn entry can be completed.
ghost use Rattle.std.specs.Prelude.{◌≡◌, ◌+◌, ◌*◌, ◌/◌, ◌<◌, ◌≤◌, ◌==◌, List, [], ◌∷◌, ◌++◌, ℕ, length, slice_index, bit_and, IfOk, IfErr, IfSome, IsSome};
ghost use Rattle.flash_traits.specs.declared.board.Fault.TheVariants.{Read};
ghost use Rattle.flash_traits.specs.declared.board.Mark.{Mark};
ghost use Rattle.flash_traits.specs.Words.{halfwords_in, region_length, IsSectorSize, halfwords_of};
ghost use Rattle.flash_traits.specs.Causes.{FailsBy};
ghost use Rattle.sector_log.specs.Entries.{Entry};
ghost use Rattle.sector_log.specs.Bytes.{programmable};
ghost use Rattle.flash_traits.specs.Calls.{OnlyReads};
ghost use Rattle.sector_log.specs.Appends.{IsTornLast, IsLogIn};
ghost use Rattle.sector_log.specs.Steps.Calls.{ReadsOrFails};

use crate::Log;
use byteorder::{ByteOrder, LittleEndian};
use flash_traits::{Board, Fault, Region, read_halfword};

/// Whether the halfword at an offset can still be programmed to this one.
fn word_fits<B: Board>(board: &mut B, region: Region, at: u32, new: u16) -> Result<bool, Fault>
    requires attached { IsSectorSize (B.sector_bytes board.old) }
    requires inside { at < region_length (B.sector_bytes board.old) region }
    ensures fits { IfOk result
        (λ fits. B.tells board.new
        → fits ≡ (bit_and (slice_index (halfwords_in (B.words board.old) region) at) new == new)) }
    ensures calls { ReadsOrFails B.Board board.old result board.new }
{
    let word = read_halfword(board, region, at)?;
    Ok(word & new == new)
}

/// Whether the torn last entry can be completed with these bytes, as many as it has: a program can
/// only clear bits.
pub fn torn_fits<B: Board>(board: &mut B, log: Log, bytes: &[u8]) -> Result<bool, Fault>
    requires attached { IsSectorSize (B.sector_bytes board.old) }
    requires log { IsLogIn (region_length (B.sector_bytes board.old) log.region) log }
    requires torn { IsSome log.torn }
    requires size { IfSome log.torn (λ torn. length bytes.now ≡ 8 * torn.lines) }
    ensures fits { IfOk result
        (λ fits. B.tells board.new
        → (mark : Mark) (entries : List Entry) (line lines : ℕ) (content : List ℕ)
        → IsTornLast log (B.words board.old) mark entries line lines content
        → fits ≡ programmable content (halfwords_of bytes.now)) }
    ensures fails { FailsBy Read (B.faults board.old) (B.faults board.new) result }
    ensures reads { OnlyReads B.Board board.old board.new }
{
    let Some(torn) = log.torn else { unreachable!() };
    for i in 0..bytes.len() / 2 {
        let new = LittleEndian::read_u16(&bytes[2 * i..]);
        if !word_fits(board, log.region, torn.at + 1 + i as u32, new)? {
            return Ok(false);
        }
    }
    Ok(true)
}
