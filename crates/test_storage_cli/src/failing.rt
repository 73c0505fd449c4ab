//! Each command with each call of its board, and of its output, failing in turn. The status is that
//! of the call's kind, and its line is all that is printed. What a failing output cuts short never
//! goes on, and a served image has all that was done. A source that fails is never asked.
use byteorder::{ByteOrder, LittleEndian};
use flash_board::{Feed, MemBoard, MemSink, MemSource};
use std::alloc::Global;
use std::test::Fail;
use storage_cli::{Status, run};

// The status of a command, what it printed, and the image that it left.
#[derive(Drop)]
struct Ended {
    status: Status,
    text: Vec<u8>,
    image: Vec<u8>,
}

// A command whose board and output fail at the calls with these numbers, and whose input always
// does.
fn command(
    alloc: Global,
    words: &[&str],
    image: &[u8],
    failing_board: u32,
    failing_output: u32,
) -> Result<Ended, Fail> {
    let mut board = MemBoard::new(alloc, image, &[Feed::Idle, Feed::Idle], &[failing_board])?;
    let mut input = MemSource::new(alloc, &[], &[0])?;
    let mut out = MemSink::new(alloc, 20_000, &[failing_output])?;
    let status = run(alloc, words, &mut board, &mut input, &mut out);
    Ok(Ended {
        status,
        text: Vec::from_slice(alloc, out.bytes())?,
        image: board.image(alloc)?,
    })
}

fn fresh_image(alloc: Global) -> Result<Vec<u8>, Fail> {
    let mut image = vec![in alloc; 0xFFu8; 49_152]?;
    LittleEndian::write_u16_into(&[0x5BFE, 0x5168], &mut image[..4]);
    LittleEndian::write_u16_into(&[0x5BFF, 0x5168], &mut image[16_384..16_388]);
    Ok(image)
}

#[test]
fn a_failing_output_cuts_the_text_and_loses_nothing(rt: HostRuntime) -> Result<(), Fail> {
    let alloc = rt.alloc();
    let image = fresh_image(alloc)?;
    let cases: [(&[&str], u8); 7] = [
        (&["serve", "a"], 0),
        (&["serve", "a", "--turns", "2"], 8),
        (&["dump", "a"], 0),
        (&["report", "a"], 0),
        (&["format", "a", "--port", "7"], 1),
        (&["format", "a"], 0),
        (&["gen", "1"], 0),
    ];
    for (words, status) in cases {
        let whole = command(alloc, words, &image, u32::MAX, u32::MAX)?;
        assert_eq!(rt; whole.status, Status(status));
        let mut stopped = true;
        for failing in 0..1_000 {
            let ended = command(alloc, words, &image, u32::MAX, failing)?;
            assert!(rt; whole.text.starts_with(ended.text.as_slice()));
            assert!(rt; ended.image.as_slice() == whole.image.as_slice());
            if ended.status == whole.status {
                assert_eq!(rt; ended.text.as_slice(), whole.text.as_slice());
                stopped = false;
                break;
            }
            assert_eq!(rt; ended.status, Status(10));
            assert!(rt; ended.text.len() < whole.text.len());
        }
        assert!(rt; !stopped, "{}", words.len());
    }
    Ok(())
}

// The line of a status that tells which kind of call failed.
fn line_of(status: u8) -> &'static [u8] {
    match status {
        13 => b"error 13 attach\n",
        4 => b"error 4 read\n",
        5 => b"error 5 flash\n",
        _ => b"error 6 link\n",
    }
}

// The attach, and the reads of the guard row, the heads and both sectors.
const CALLS_TO_READ: u32 = 1 + 8_193 + 4 + 8_193 + 8_192;

// The statuses of a command in the order of its calls, until one ends well: the attach, some reads
// of the image, each program, and each call of the link.
#[test]
fn a_failing_call_is_told_by_its_kind(rt: HostRuntime) -> Result<(), Fail> {
    let alloc = rt.alloc();
    let image = fresh_image(alloc)?;
    let cases: [(&[&str], &[u8]); 4] = [
        (&["serve", "a"], &[13, 4, 5, 6]),
        (&["format", "a", "--sector", "16384"], &[13, 5]),
        (&["dump", "a"], &[13, 4]),
        (&["report", "a"], &[13, 4]),
    ];
    for (words, statuses) in cases {
        let mut left = statuses.iter();
        let mut status = 0;
        let mut failing = 0u32;
        let mut is_whole = false;
        for _ in 0..2_000 {
            let ended = command(alloc, words, &image, failing, u32::MAX)?;
            if ended.status == Status(0) {
                is_whole = true;
                break;
            }
            if ended.status != Status(status) {
                status = match left.next() {
                    Some(next) => *next,
                    None => return Err(Fail::from("a status out of order")),
                };
            }
            assert_eq!(rt; ended.status, Status(status));
            assert_eq!(rt; ended.text.as_slice(), line_of(status));
            // ever smaller steps towards the end of the reads; a report reads the image once more
            let step = match status {
                4 if failing < CALLS_TO_READ => (CALLS_TO_READ - failing) / 8 + 1,
                4 => 500,
                _ => 1,
            };
            failing = failing.saturating_add(step);
        }
        assert!(rt; is_whole && left.next().is_none());
    }
    Ok(())
}
