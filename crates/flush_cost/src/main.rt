//! What a flushed line costs in flash: single lines, and lines in runs of eight.
#![tactic(auto)]

ghost use Rattle.std.specs.Prelude.{◌≡◌, ◌≤◌, ◌<◌, IfOk};
ghost use Rattle.storage_lines.specs.Bytes.{AreInside};

use anyhow::{Result, bail};
use dirty_lines::DirtyLines;
use flash_board::{Board, MemBoard};
use std::alloc::Global;
use storage_lines::{Batch, LineWrite};

/// The lines of each flush.
const LINES: u16 = 8;

/// The calls before the first program: the attach, and what the opening reads of an empty image of
/// 16,384-byte sectors.
const OPENING: u32 = 1 + 8193 + 4 + 8193 + 8192;

/// What a flush took.
#[derive(Clone, Copy)]
struct Cost {
    programs: u32,
    bytes: u32,
}

/// A board with an empty image of 16,384-byte sectors, whose call with this number fails.
fn attached(alloc: Global, failing: u32) -> Result<MemBoard>
    ensures { IfOk result (λ board. ⟦<MemBoard as Board>⟧.sector_bytes board ≡ 16384) }
{
    let mut image = vec![in alloc; 0xFF; 49_152]?;
    image[..4].copy_from_slice(&[0xFE, 0x5B, 0x68, 0x51]);
    image[16_384..16_388].copy_from_slice(&[0xFF, 0x5B, 0x68, 0x51]);
    let mut board = MemBoard::new(alloc, &image, &[], &[failing])?;
    match board.attach("image", 0, None) {
        Ok(geometry) if geometry.sector_bytes == 16_384 => Ok(board),
        _ => bail!("the image wasn't attached"),
    }
}

/// Lines whose numbers rise by this step, all of whose bytes are 7.
fn lines_of(step: u16) -> Batch
    requires { step ≤ 2 }
    ensures { AreInside result.items }
{
    let mut batch = Batch::new();
    for at in 0..LINES {
        batch.push(LineWrite {
            line: step * at,
            bytes: [7; 8],
        });
    }
    batch
}

/// The bytes of the entries that stand behind the mark of sector 0. No byte of theirs is FF.
fn bytes_of(image: &[u8]) -> u32 {
    let mut bytes: u32 = 0;
    for byte in image.iter().skip(4) {
        if *byte == 0xFF {
            return bytes;
        }
        bytes = bytes.saturating_add(1);
    }
    bytes
}

/// Flushes the lines on a board whose next call behind so many programs fails. None where the flush
/// met that call.
fn flushed(alloc: Global, batch: &Batch, programs: u32) -> Result<Option<Cost>>
    requires inside { AreInside batch.now.items }
    requires few { programs < 1000 }
{
    let mut board = attached(alloc, OPENING + programs)?;
    let mut lines = DirtyLines::open(alloc, &mut board)?;
    lines.issue(batch)?;
    match lines.flush(&mut board, batch.len(), false) {
        Ok(()) => Ok(Some(Cost {
            programs,
            bytes: bytes_of(&board.image(alloc)?),
        })),
        Err(_) => Ok(None),
    }
}

/// What a flush of lines whose numbers rise by this step takes.
fn cost_of(alloc: Global, step: u16) -> Result<Cost>
    requires { step ≤ 2 }
{
    let batch = lines_of(step);
    for programs in 0..1000 {
        if let Some(cost) = flushed(alloc, &batch, programs)? {
            return Ok(cost);
        }
    }
    bail!("no flush was done")
}

/// What one line takes of a cost.
fn report(rt: &impl Print, name: &str, cost: Cost) -> Result<()> {
    let lines = f64::from(LINES);
    println!(rt;
        "{name}: {:.2} programs and {:.2} bytes of flash for each line",
        f64::from(cost.programs) / lines,
        f64::from(cost.bytes) / lines
    )?;
    Ok(())
}

fn main(rt: HostRuntime) -> Result<()> {
    let alloc = rt.alloc();
    report(&rt, "single lines", cost_of(alloc, 2)?)?;
    report(&rt, "runs of eight", cost_of(alloc, 1)?)
}
