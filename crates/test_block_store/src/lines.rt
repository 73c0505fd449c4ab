//! Pending lines over boards in memory: what a failing program leaves of an entry, and a full ring.
ghost use Rattle.std.specs.Prelude.{◌≡◌, ◌+◌, ◌≤◌, length, IfOk, OnOk};
ghost use Rattle.block_store.specs.Store.{Fits};
ghost use Rattle.storage_lines.specs.declared.lines.TheConstants.{LINES};
ghost use Rattle.storage_lines.specs.Bytes.{AreInside};

use block_store::PutError;
use dirty_lines::{DirtyLines, Full, PENDING_LINES};
use flash_board::MemBoard;
use flash_traits::{Board, Failed, Fault, Region};
use std::alloc::Global;
use std::test::Fail;
use storage_lines::{Batch, LineWrite};

// A board with an empty image of 16,384-byte sectors, attached by the call with the number 0.
fn attached(alloc: Global, fails: &[u32]) -> Result<MemBoard, Fail>
    ensures { IfOk result (λ board. ⟦<MemBoard as Board>⟧.sector_bytes board ≡ 16384) }
{
    let mut image = vec![in alloc; 0xFF; 49_152]?;
    image[..4].copy_from_slice(&[0xFE, 0x5B, 0x68, 0x51]);
    image[16_384..16_388].copy_from_slice(&[0xFF, 0x5B, 0x68, 0x51]);
    let mut board = MemBoard::new(alloc, &image, &[], fails)?;
    match board.attach("image", 0, None) {
        Ok(geometry) if geometry.sector_bytes == 16_384 => Ok(board),
        _ => Err(Fail::from("attach")),
    }
}

// The lines of an image that is opened.
fn opened(alloc: Global, board: &mut MemBoard) -> Result<DirtyLines, Fail>
    requires { ⟦<MemBoard as Board>⟧.sector_bytes board.old ≡ 16384 }
    ensures fits { IfOk result (λ lines. Fits ⟦<MemBoard as Board>⟧ board.new lines.store) }
    ensures size { ⟦<MemBoard as Board>⟧.sector_bytes board.new ≡ 16384 }
{
    match DirtyLines::open(alloc, board) {
        Ok(lines) => Ok(lines),
        Err(_) => Err(Fail::from("open")),
    }
}

// Flushes n lines of a board that doesn't fail.
fn flush(lines: &mut DirtyLines, board: &mut MemBoard, n: usize) -> Result<(), Fail>
    requires { Fits ⟦<MemBoard as Board>⟧ board.old lines.old.store }
    ensures fits { OnOk result (Fits ⟦<MemBoard as Board>⟧ board.new lines.new.store) }
    ensures size { ⟦<MemBoard as Board>⟧.sector_bytes board.new
        ≡ ⟦<MemBoard as Board>⟧.sector_bytes board.old }
{
    match lines.flush(board, n, false) {
        Ok(()) => Ok(()),
        Err(_) => Err(Fail::from("flush")),
    }
}

// So many adjacent lines from this one on, all of whose bytes are 7.
fn adjacent(first: u16, count: u16) -> Batch
    requires inside { first + count ≤ LINES }
    requires room { count ≤ 64 }
    ensures inside { AreInside result.items }
    ensures count { length result.items ≡ count }
{
    let mut batch = Batch::new();
    for at in 0..count {
        batch.push(LineWrite {
            line: first + at,
            bytes: [7; 8],
        });
    }
    batch
}

// What the opening reads of an empty image of 16,384-byte sectors: the guard row and each sector
// with the halfword that is met twice, and the four halfwords of the heads.
const READS: u32 = 8193 + 4 + 8193 + 8192;

#[test]
fn three_adjacent_lines_are_one_entry(rt: HostRuntime) -> Result<(), Fail> {
    let alloc = rt.alloc();
    // the header with writing, four halfwords for each line, the header with valid
    for done in 0..15 {
        let mut board = attached(alloc, &[READS + 1 + done])?;
        let mut lines = opened(alloc, &mut board)?;
        assert_eq!(rt; lines.issue(&adjacent(5, 3)), Ok(()));
        let (answer, header, byte) = match done {
            0 => (Err(PutError::Fault(Fault::Flash)), 0xFFFF, 0),
            14 => (Ok(()), 0x4014, 7),
            _ => (Err(PutError::Fault(Fault::Flash)), 0x4015, 0),
        };
        assert_eq!(rt; lines.flush(&mut board, 3, false), answer, "{done}");
        if done == 14 {
            // the call behind the fourteenth program
            assert_eq!(rt; board.read(Region::S0, 2), Err(Failed));
        }
        assert_eq!(rt; board.read(Region::S0, 2), Ok(header), "{done}");
        let again = opened(alloc, &mut board)?;
        assert_eq!(rt; &again.current()[40..64], [byte; 24].as_slice(), "{done}");
    }
    Ok(())
}

#[test]
fn a_run_of_nine_lines_is_two_entries(rt: HostRuntime) -> Result<(), Fail> {
    let alloc = rt.alloc();
    let mut board = attached(alloc, &[])?;
    let mut lines = opened(alloc, &mut board)?;
    assert_eq!(rt; lines.issue(&adjacent(5, 9)), Ok(()));
    flush(&mut lines, &mut board, 1)?;
    assert_eq!(rt; lines.pending(), 1);
    flush(&mut lines, &mut board, 1)?;
    assert_eq!(rt; lines.pending(), 0);
    assert_eq!(rt; lines.compact(&mut board), Ok(()));
    assert_eq!(rt; board.read(Region::S0, 2), Ok(0xE014));
    assert_eq!(rt; board.read(Region::S0, 35), Ok(0x0034));
    assert_eq!(rt; board.read(Region::S0, 40), Ok(0xFFFF));
    Ok(())
}

#[test]
fn a_full_ring_takes_no_line(rt: HostRuntime) -> Result<(), Fail> {
    let alloc = rt.alloc();
    let mut board = attached(alloc, &[])?;
    let mut lines = opened(alloc, &mut board)?;
    for _ in 0..31 {
        assert_eq!(rt; lines.issue(&adjacent(1_800, 64)), Ok(()));
    }
    assert_eq!(rt; lines.issue(&adjacent(0, 60)), Ok(()));
    assert_eq!(rt; lines.issue(&adjacent(100, 5)), Err(Full));
    assert_eq!(rt; lines.issue(&adjacent(200, 4)), Ok(()));
    assert_eq!(rt; lines.issue(&adjacent(1_900, 1)), Err(Full));
    assert_eq!(rt; lines.issue(&adjacent(0, 0)), Ok(()));
    assert_eq!(rt; lines.pending(), PENDING_LINES);
    assert_eq!(rt; lines.current()[1_607], 7);
    assert_eq!(rt; lines.current()[807], 0);
    Ok(())
}
