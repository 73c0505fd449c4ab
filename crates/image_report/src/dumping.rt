//! What an image stands for, as text.
ghost use Rattle.std.specs.Prelude.{◌≡◌, ◌≤◌, List, ℕ, length, OnOk, IfErr};
ghost use Rattle.flash_traits.specs.declared.board.Fault.TheVariants.{Read};
ghost use Rattle.flash_traits.specs.Words.{IsSectorSize};
ghost use Rattle.flash_traits.specs.Causes.{counts_after, told_by};
ghost use Rattle.sector_log.specs.Storage.{storage_bytes};
ghost use Rattle.flash_traits.specs.Calls.{OnlyReads};
ghost use Rattle.sector_image.specs.FirstBad.{Place, FirstBad};
ghost use Rattle.sector_image.specs.Stands.{Stands};
ghost use Rattle.image_report.specs.Refusals.{OnForeign, OnFault, OnMemory, BeforeOutput};
ghost use Rattle.image_report.specs.Refusals.{OnceRead, fault_in, sink_count_after};
ghost use Rattle.image_report.specs.Dumps as dumps;
ghost use Rattle.image_report.specs.Dumps.{IsDump, dump_text, stored_text};
ghost use Rattle.image_report.specs.Writes.{WritesOne, WritesPrefix};
ghost use Rattle.image_report.specs.Steps.Writes.{Writes};

use crate::ReportError;
use crate::fence::write_fence;
use crate::lines::{push_size, shape_name};
use crate::mission::write_mission;
use crate::output::write;
use crate::params::write_params;
use flash_traits::{Board, Failed, Sink};
use printed_text::{Line, push, push_number};
use sector_image::{Images, Shape, survey};
use sha2::{Digest, Sha256};
use std::alloc::Global;

/// The first line: the sector size, the guard count and the state.
fn head_line(sector_bytes: u32, guard: u16, shape: Shape) -> Line
    ensures { result.items ≡ dumps.head_line sector_bytes guard shape }
{
    let mut line = Line::new();
    push_size(&mut line, sector_bytes);
    push(&mut line, b" guard ");
    push_number(&mut line, guard);
    push(&mut line, b" ");
    push(&mut line, shape_name(shape));
    push(&mut line, b"\n");
    line
}

/// The last line: the digest of the storage bytes.
#[tactic(auto, unfolding(crate::specs::Dumps::digest_line))]
fn digest_line(bytes: &[u8]) -> Line
    ensures { result.items ≡ dumps.digest_line bytes.now }
{
    let mut digits = [0u8; 64];
    match hex::encode_to_slice(Sha256::digest(bytes), &mut digits) {
        Ok(()) => {}
        Err(_) => unreachable!(),
    }
    let mut line = Line::new();
    push(&mut line, b"sha256 ");
    push(&mut line, &digits);
    push(&mut line, b"\n");
    line
}

/// Writes what the storage bytes hold, section by section.
fn write_stored<K: Sink>(out: &mut K, bytes: &[u8]) -> Result<(), Failed>
    requires { length bytes.now ≡ storage_bytes }
    ensures { Writes K.Sink out.old out.new result (stored_text bytes.now) }
{
    write_params(out, bytes)?;
    write_mission(out, bytes)?;
    write_fence(out, bytes)
}

/// Writes the whole text.
fn write_dump<K: Sink>(
    out: &mut K,
    sector_bytes: u32,
    guard: u16,
    shape: Shape,
    bytes: &[u8],
) -> Result<(), Failed>
    requires { length bytes.now ≡ storage_bytes }
    ensures { Writes K.Sink out.old out.new result
        (dump_text sector_bytes guard shape bytes.now) }
{
    write(out, head_line(sector_bytes, guard, shape).as_slice())?;
    write_stored(out, bytes)?;
    write(out, digest_line(bytes).as_slice())
}

/// Prints what an image stands for: its sector size, guard count and state, its parameters, its
/// mission, its fence, and the digest of its storage bytes. Nothing is programmed.
///
/// The image is read before the first byte is written.
pub fn dump<B: Board, K: Sink>(alloc: Global, board: &mut B, out: &mut K) -> Result<(), ReportError>
    requires attached { IsSectorSize (B.sector_bytes board.old) }

    // What is written, where the words and the bytes are told: the whole text at Ok, never more
    // than a prefix of it, and nothing before the image was read.
    ensures text { OnOk result (B.tells board.new → K.tells_written out.new
        → WritesOne (IsDump (B.words board.old)) (K.written out.old) (K.written out.new)) }
    ensures prefix { B.tells board.new → K.tells_written out.new
        → WritesPrefix (IsDump (B.words board.old)) (K.written out.old) (K.written out.new) }
    ensures quiet { IfErr result (λ e. BeforeOutput e (out.new ≡ out.old)) }
    ensures told { K.tells_written out.new → K.tells_written out.old }

    // The image is in one of the four states, or this is its first foreign word.
    ensures stands { OnceRead result (B.tells board.new
        → (bytes : List ℕ) × Stands (B.words board.old) bytes) }
    ensures foreign { IfErr result (λ e. OnForeign e (λ place. B.tells board.new
        → FirstBad (B.words board.old) place)) }

    // No count of faults changes that isn't told, and one that is told rises by one. Want of memory
    // is told before anything was read or written.
    ensures fault { IfErr result (λ e. OnFault e (λ kind. kind ≡ Read)) }
    ensures counts { B.faults board.new
        ≡ counts_after (told_by fault_in result) (B.faults board.old) }
    ensures output { K.faults out.new ≡ sink_count_after result (K.faults out.old) }
    ensures memory { IfErr result (λ e. OnMemory e (board.new ≡ board.old)) }
    ensures reads { OnlyReads B.Board board.old board.new }
{
    let mut images = Images::new(alloc)?;
    let found = survey(board, &mut images)?;
    let kept = found.kept;
    write_dump(
        out,
        kept.sector_bytes,
        kept.guard,
        found.shape,
        images.whole(),
    )?;
    Ok(())
}
