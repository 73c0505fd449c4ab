//! The guard row where calls fail: a step of its count, and the halfword that is named as foreign.
ghost use Rattle.std.specs.Prelude.{◌≡◌, IfOk};

use flash_board::{Board, Fault, MemBoard, Region};
use guard_row::{GuardError, count, step};
use std::alloc::Global;
use std::test::Fail;

// An attached board of the smallest size with nothing but FFFF. The calls with these numbers,
// counted from 1, fail.
fn blank(alloc: Global, fails: &[u32]) -> Result<MemBoard, Fail>
    ensures { IfOk result (λ board. ⟦<MemBoard as Board>⟧.sector_bytes board ≡ 16384) }
{
    let mut board = MemBoard::new(alloc, &[], &[], fails)?;
    match board.attach("image", 0, Some(16_384)) {
        Ok(geometry) if geometry.sector_bytes == 16_384 => Ok(board),
        _ => Err(Fail::from("attach")),
    }
}

#[test]
fn a_step_raises_the_count_and_one_that_fails_leaves_it(rt: HostRuntime) -> Result<(), Fail> {
    let mut board = blank(rt.alloc(), &[3])?;
    assert_eq!(rt; step(&mut board, 0), Ok(1));
    assert_eq!(rt; step(&mut board, 1), Ok(2));
    assert_eq!(rt; step(&mut board, 2), Err(Fault::Flash));
    assert_eq!(rt; count(&mut board), Ok(2));
    assert_eq!(rt; board.read(Region::Guard, 1), Ok(0));
    assert_eq!(rt; board.read(Region::Guard, 2), Ok(0xFFFF));
    Ok(())
}

#[test]
fn the_first_halfword_behind_the_zeros_that_is_not_erased_is_named(
    rt: HostRuntime,
) -> Result<(), Fail> {
    // a hole, a halfword that is half programmed, and a zero at the row's end
    for (at, word) in [(2, 0x0000), (1, 0x00FF), (8191, 0x0000)] {
        let mut board = blank(rt.alloc(), &[])?;
        assert_eq!(rt; step(&mut board, 0), Ok(1));
        assert_eq!(rt; board.program(Region::Guard, at, word), Ok(()));
        assert_eq!(rt;
            count(&mut board),
            Err(GuardError::Word { offset: at, word })
        );
    }
    Ok(())
}
