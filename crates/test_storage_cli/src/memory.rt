//! Each command where one allocation is refused, which tests/refused_memory.py does one number at a
//! time. With ample memory a command does its work. Where an allocation is refused inside `run`,
//! the status is 2 with its line: such a test ends with the words "status 2".
//! Where the refused one is among those that a test makes before, it ends with "not begun".
use flash_board::{Feed, MemBoard, SureSink, SureSource};
use std::alloc::{AllocError, Global};
use std::test::Fail;
use storage_cli::{Status, run};

// What is there before the command begins.
#[derive(Drop)]
struct Prepared {
    board: MemBoard,
    input: SureSource,
    out: SureSink,
}

// A fresh image of 16,384-byte sectors.
fn prepare(alloc: Global) -> Result<Prepared, AllocError> {
    let mut image = Vec::from_slice(alloc, &[0xFEu8, 0x5B, 0x68, 0x51])?;
    image.resize(16_384, 0xFF)?;
    image.extend_from_slice(&[0xFF, 0x5B, 0x68, 0x51])?;
    image.resize(49_152, 0xFF)?;
    Ok(Prepared {
        board: MemBoard::new(alloc, &image, &[Feed::Idle], &[])?,
        input: SureSource::new(alloc, b"e\n")?,
        out: SureSink::new(alloc, 20_000)?,
    })
}

fn ends_well(alloc: Global, words: &[&str], printed: &[u8]) -> Result<(), Fail> {
    let Ok(prepared) = prepare(alloc) else {
        return Err(Fail::from("not begun"));
    };
    let Prepared {
        mut board,
        mut input,
        mut out,
    } = prepared;
    let status = run(alloc, words, &mut board, &mut input, &mut out);
    let text = out.bytes();
    match status {
        Status(0) if text.starts_with(printed) => Ok(()),
        Status(2) if text == b"error 2 memory\n".as_slice() => Err(Fail::from("status 2")),
        _ => Err(Fail::from("another status or text")),
    }
}

#[test]
fn serve_with_memory(rt: HostRuntime) -> Result<(), Fail> {
    ends_well(
        rt.alloc(),
        &["serve", "--turns=2", "a"],
        b"served 1 events 0 frames\n",
    )
}

#[test]
fn replay_with_memory(rt: HostRuntime) -> Result<(), Fail> {
    ends_well(rt.alloc(), &["replay", "a"], b"bytes ")
}

#[test]
fn dump_with_memory(rt: HostRuntime) -> Result<(), Fail> {
    ends_well(rt.alloc(), &["dump", "a"], b"image 16384 guard 0 alone\n")
}

#[test]
fn report_with_memory(rt: HostRuntime) -> Result<(), Fail> {
    ends_well(rt.alloc(), &["report", "a"], b"image 16384\n")
}

#[test]
fn format_with_memory(rt: HostRuntime) -> Result<(), Fail> {
    ends_well(rt.alloc(), &["format", "--sector", "16384", "a"], b"")
}

#[test]
fn gen_with_memory(rt: HostRuntime) -> Result<(), Fail> {
    ends_well(
        rt.alloc(),
        &["gen", "1"],
        b"gen 1 events 8 frames 8 lines 23 sha256 6a687514",
    )
}
