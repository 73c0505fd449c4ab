//! Replays: what a script prints, which line is told as refused, and each call of the board, of the
//! input and of the output failing in turn. The image is as it was at every end.
use byteorder::{ByteOrder, LittleEndian};
use flash_board::{MemBoard, MemSink, MemSource};
use std::alloc::Global;
use std::test::Fail;
use storage_cli::{Status, run};

// The digest of storage bytes that are all 0 but for formatted parameters: 50 41 06 00 14 42 00 00,
// 00 00 FF FF 3F 00 00 00.
const FORMATTED: &[u8] =
    b"bytes e5e46198c5be5f1fcb2477b190423bc00cbb388db925aa940e7e3b757c5c052c\n";

// An idle turn, a parameter that is read, a loss, and the same once more.
const READS: &[u8] = b"i\n\
d 0 FE1400FFBE14030001010000000000000000000000000000000053AB\n\
x\n\
d 0 FE1400FFBE14030001010000000000000000000000000000000053AB\n\
e\n";

// The status of a replay, what it printed, and the image after it.
#[derive(Drop)]
struct Ended {
    status: Status,
    text: Vec<u8>,
    image: Vec<u8>,
}

// A replay whose board, input and output fail at the calls with these numbers.
fn replay(
    alloc: Global,
    image: &[u8],
    script: &[u8],
    failing_board: u32,
    failing_input: u32,
    failing_output: u32,
) -> Result<Ended, Fail> {
    let mut board = MemBoard::new(alloc, image, &[], &[failing_board])?;
    let mut input = MemSource::new(alloc, script, &[failing_input])?;
    let mut out = MemSink::new(alloc, 20_000, &[failing_output])?;
    let status = run(alloc, &["replay", "a"], &mut board, &mut input, &mut out);
    Ok(Ended {
        status,
        text: Vec::from_slice(alloc, out.bytes())?,
        image: board.image(alloc)?,
    })
}

fn fresh_image(alloc: Global) -> Result<Vec<u8>, Fail> {
    let mut image = vec![in alloc; 0xFFu8; 49_152]?;
    LittleEndian::write_u16_into(&[0x5BFE, 0x5168], &mut image[..4]);
    LittleEndian::write_u16_into(&[0x5BFF, 0x5168], &mut image[16_384..16_388]);
    Ok(image)
}

#[test]
fn prints_a_loss_and_the_digest(rt: HostRuntime) -> Result<(), Fail> {
    let alloc = rt.alloc();
    let image = fresh_image(alloc)?;
    // the last line may lack its end, and what follows the end has no effect
    let scripts: [&[u8]; 3] = [b"i\ne\n", b"e", b"e\nz\n"];
    for script in scripts {
        let ended = replay(alloc, &image, script, u32::MAX, u32::MAX, u32::MAX)?;
        assert_eq!(rt; ended.status, Status(0));
        assert_eq!(rt; ended.text.as_slice(), FORMATTED);
        assert!(rt; ended.image.as_slice() == image.as_slice());
    }
    let ended = replay(alloc, &image, b"i\nx\ne\n", u32::MAX, u32::MAX, u32::MAX)?;
    assert_eq!(rt; ended.status, Status(0));
    assert!(rt; ended.text.starts_with(b"loss\n"));
    assert!(rt; ended.text.ends_with(FORMATTED));
    assert_eq!(rt; ended.text.len(), 5 + FORMATTED.len());
    Ok(())
}

#[test]
fn names_the_refused_line(rt: HostRuntime) -> Result<(), Fail> {
    let alloc = rt.alloc();
    let image = fresh_image(alloc)?;
    let cases: [(&[u8], &[u8]); 5] = [
        (b"i\nz\n", b"error 11 line 2\n"),
        (b"", b"error 11 line 1\n"),
        (b"x\ni\n", b"loss\nerror 11 line 3\n"),
        (b"l 0 0\ne\n", b"error 11 line 1\n"),
        (b"d 8 00\ne\n", b"error 11 line 1\n"),
    ];
    for (script, text) in cases {
        let ended = replay(alloc, &image, script, u32::MAX, u32::MAX, u32::MAX)?;
        assert_eq!(rt; ended.status, Status(11));
        assert_eq!(rt; ended.text.as_slice(), text);
        assert!(rt; ended.image.as_slice() == image.as_slice());
    }
    // sixteen losses wait, and not one more
    let mut losses = vec![in alloc; 0u8; 0]?;
    for _ in 0..16 {
        losses.extend_from_slice(b"l 1000000 0\n")?;
    }
    let ended = replay(alloc, &image, &losses, u32::MAX, u32::MAX, u32::MAX)?;
    assert_eq!(rt; ended.text.as_slice(), b"error 11 line 17\n".as_slice());
    losses.extend_from_slice(b"l 1000000 0\ne\n")?;
    let ended = replay(alloc, &image, &losses, u32::MAX, u32::MAX, u32::MAX)?;
    assert_eq!(rt; ended.status, Status(11));
    assert_eq!(rt; ended.text.as_slice(), b"error 11 line 17\n".as_slice());
    Ok(())
}

// Each read of the input fails in turn: what was printed before is a prefix of the whole text, and
// the line of the cause follows it.
#[test]
fn a_failing_input_is_told(rt: HostRuntime) -> Result<(), Fail> {
    let alloc = rt.alloc();
    let image = fresh_image(alloc)?;
    let whole = replay(alloc, &image, READS, u32::MAX, u32::MAX, u32::MAX)?;
    assert_eq!(rt; whole.status, Status(0));
    let mut stopped = true;
    for failing in 0..100 {
        let ended = replay(alloc, &image, READS, u32::MAX, failing, u32::MAX)?;
        assert!(rt; ended.image.as_slice() == image.as_slice());
        if ended.status == Status(0) {
            assert_eq!(rt; ended.text.as_slice(), whole.text.as_slice());
            stopped = false;
            break;
        }
        assert_eq!(rt; ended.status, Status(9));
        match ended.text.as_slice().strip_suffix(b"error 9 input\n") {
            Some(before) => assert!(rt; whole.text.starts_with(before)),
            None => return Err(Fail::from("no line of the cause")),
        }
    }
    assert!(rt; !stopped);
    Ok(())
}

// Each line of the output fails in turn, and nothing follows it.
#[test]
fn a_failing_output_cuts_a_replay(rt: HostRuntime) -> Result<(), Fail> {
    let alloc = rt.alloc();
    let image = fresh_image(alloc)?;
    let whole = replay(alloc, &image, READS, u32::MAX, u32::MAX, u32::MAX)?;
    assert_eq!(rt; whole.status, Status(0));
    let mut stopped = true;
    for failing in 0..100 {
        let ended = replay(alloc, &image, READS, u32::MAX, u32::MAX, failing)?;
        assert!(rt; ended.image.as_slice() == image.as_slice());
        assert!(rt; whole.text.starts_with(ended.text.as_slice()));
        if ended.status == Status(0) {
            assert_eq!(rt; ended.text.as_slice(), whole.text.as_slice());
            // a frame, the loss, a frame, and the digest
            assert_eq!(rt; failing, 4);
            stopped = false;
            break;
        }
        assert_eq!(rt; ended.status, Status(10));
        assert!(rt; ended.text.len() < whole.text.len());
    }
    assert!(rt; !stopped);
    Ok(())
}

// The attach, and some reads of the copy: nothing was printed before.
#[test]
fn a_failing_call_of_the_board_is_told(rt: HostRuntime) -> Result<(), Fail> {
    let alloc = rt.alloc();
    let image = fresh_image(alloc)?;
    let cases: [(u32, u8, &[u8]); 5] = [
        (0, 13, b"error 13 attach\n"),
        (1, 4, b"error 4 read\n"),
        (2, 4, b"error 4 read\n"),
        (1_000, 4, b"error 4 read\n"),
        (24_000, 4, b"error 4 read\n"),
    ];
    for (failing, status, text) in cases {
        let ended = replay(alloc, &image, READS, failing, u32::MAX, u32::MAX)?;
        assert_eq!(rt; ended.status, Status(status));
        assert_eq!(rt; ended.text.as_slice(), text);
        assert!(rt; ended.image.as_slice() == image.as_slice());
    }
    Ok(())
}
