//! The program: the words that it was started with, a file and a socket as the board, and standard
//! input and output.
#![tactic(auto)]

mod file_board;
mod image_file;
mod link;
mod places;
mod streams;

use file_board::FileBoard;
use std::alloc::AllocError;
use std::fs::File;
use std::io::ErrorKind;
use std::net::Net;
use std::process::ExitCode;
use std::rt::Files;
use std::time::Clock;
use std::{env, io};
use storage_cli::{DONE, FLASH_FAILED, NO_MEMORY, Status, TURNS_OVER, WORN, run};
use streams::{ReaderSource, WriterSink};

/// The words after the program's name, and none where they are no texts.
fn words_of<R: env::Env + AllocGlobal>(rt: &R) -> Result<Vec<String>, AllocError> {
    match env::args(rt) {
        Ok(all) => all.skip(1).collect(rt.alloc()),
        Err(e) if e.kind() == ErrorKind::OutOfMemory => Err(AllocError),
        Err(_) => Ok(Vec::new(rt.alloc())),
    }
}

/// Whether a status says that all that was flushed is in the image.
fn says_stored(status: Status) -> bool {
    status.0 == DONE || status.0 == TURNS_OVER || status.0 == WORN
}

/// Does what the words ask for. The error is want of memory for the words. Where the disk doesn't
/// take the last of what was done, the status says so, after the line that was printed.
fn answer<R>(rt: &R) -> Result<Status, AllocError>
where
    R: env::Env + AllocGlobal + Input + Print + Files<File = File> + Net + Clock,
{
    let owned = words_of(rt)?;
    let mut words: Vec<&str> = Vec::new(rt.alloc());
    for word in owned.iter() {
        words.push(word.as_str())?;
    }
    let mut board = FileBoard::new(rt, rt.alloc());
    let mut input = ReaderSource::new(rt.reader());
    let mut out = WriterSink::new(io::writer(rt));
    let status = run(
        rt.alloc(),
        words.as_slice(),
        &mut board,
        &mut input,
        &mut out,
    );
    match board.close() {
        Err(_) if says_stored(status) => Ok(Status(FLASH_FAILED)),
        _ => Ok(status),
    }
}

fn main(rt: HostRuntime) -> ExitCode {
    match answer(&rt) {
        Ok(status) => ExitCode::from(status.0),
        Err(AllocError) => ExitCode::from(NO_MEMORY),
    }
}

#[cfg(test)]
mod tests;
