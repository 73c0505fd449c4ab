//! Generated sessions: what `gen` prints, and that it asks nothing of its board or its input.
use flash_board::{MemBoard, SureSink, SureSource};
use std::test::Fail;
use storage_cli::{Status, run};

// The digest of the storage bytes after one round: formatted parameters, a record of SERVO1_MIN,
// and five waypoints.
const ONE_ROUND: &[u8] = b"gen 1 events 8 frames 8 lines 23 sha256 \
6a687514eabae61e547f263a348ed9932d0ba041580b3c277bf13a0e61c0c869\n";

#[test]
fn prints_the_summary_of_a_session(rt: HostRuntime) -> Result<(), Fail> {
    let alloc = rt.alloc();
    // each call of this board fails, and the first read of the input would
    let mut board = MemBoard::new(alloc, &[], &[], &[0, 1, 2, 3])?;
    let mut input = SureSource::new(alloc, b"unread")?;
    let mut out = SureSink::new(alloc, 200)?;
    let status = run(alloc, &["gen", "1"], &mut board, &mut input, &mut out);
    assert_eq!(rt; status, Status(0));
    assert_eq!(rt; out.bytes(), ONE_ROUND);
    Ok(())
}
