//! The lines that a call prints.
ghost use Rattle.std.specs.Prelude.{◌≡◌, ◌≤◌, ◌+◌, ◌++◌, length};
ghost use Rattle.printed_text.specs.Pieces.{with_newline};
ghost use Rattle.storage_cli.specs.Texts.{served_line, session_line, replay_digest_line, turns_line, script_line, foreign_line};
ghost use Rattle.storage_cli.specs.Steps.Stops.{line_of_stop};

use crate::stop::{Foreign, Served, Stop, Summary};
use arrayvec::ArrayVec;
use printed_text::{LINE_BYTES, Line, push, push_number, push_place, region_name};

/// The most bytes of the line of a session, its LF among them.
const SESSION_BYTES: usize = 160;

/// The line of a session, which has a digest.
pub(crate) type SessionLine = ArrayVec<u8, SESSION_BYTES>;

/// The line of a text.
fn with_newline(text: &[u8]) -> Line
    requires { length text.now + 1 ≤ LINE_BYTES }
    ensures { result.items ≡ with_newline text.now }
{
    let mut line = Line::new();
    push(&mut line, text);
    push(&mut line, b"\n");
    line
}

/// The line of a `serve` that read to the end.
pub(crate) fn served_line(served: Served) -> Line
    ensures { result.items ≡ served_line served.events served.frames }
{
    let mut line = Line::new();
    push(&mut line, b"served ");
    push_number(&mut line, served.events);
    push(&mut line, b" events ");
    push_number(&mut line, served.frames);
    push(&mut line, b" frames\n");
    line
}

/// Appends these bytes.
fn append(line: &mut SessionLine, bytes: &[u8])
    requires { length line.old.items + length bytes.now ≤ SESSION_BYTES }
    ensures { line.new.items ≡ line.old.items ++ bytes.now }
{
    match line.try_extend_from_slice(bytes) {
        Ok(()) => {}
        Err(_) => unreachable!(),
    }
}

/// The line of a `gen` that ran its session.
pub(crate) fn session_line(summary: Summary) -> SessionLine
    ensures { result.items ≡ session_line summary.rounds summary.events summary.frames
        summary.lines summary.digest }
{
    let mut digits = [0u8; 64];
    match hex::encode_to_slice(summary.digest, &mut digits) {
        Ok(()) => {}
        Err(_) => unreachable!(),
    }
    let mut counts = Line::new();
    push(&mut counts, b"gen ");
    push_number(&mut counts, summary.rounds);
    push(&mut counts, b" events ");
    push_number(&mut counts, summary.events);
    push(&mut counts, b" frames ");
    push_number(&mut counts, summary.frames);
    let mut lines = Line::new();
    push(&mut lines, b" lines ");
    push_number(&mut lines, summary.lines);
    push(&mut lines, b" sha256 ");
    let mut line = SessionLine::new();
    append(&mut line, counts.as_slice());
    append(&mut line, lines.as_slice());
    append(&mut line, &digits);
    append(&mut line, b"\n");
    line
}

/// The last line of a `replay`, by the SHA-256 of the storage bytes.
pub(crate) fn digest_line(digest: [u8; 32]) -> Line
    ensures { result.items ≡ replay_digest_line digest }
{
    let mut digits = [0u8; 64];
    match hex::encode_to_slice(digest, &mut digits) {
        Ok(()) => {}
        Err(_) => unreachable!(),
    }
    let mut line = Line::new();
    push(&mut line, b"bytes ");
    push(&mut line, &digits);
    push(&mut line, b"\n");
    line
}

/// The line of a `serve` whose turns are over.
fn turns_line(turns: u32) -> Line
    ensures { result.items ≡ turns_line turns }
{
    let mut line = Line::new();
    push(&mut line, b"error 8 turns ");
    push_number(&mut line, turns);
    push(&mut line, b"\n");
    line
}

/// The line that names a refused line of a script.
fn script_line(number: u32) -> Line
    ensures { result.items ≡ script_line number }
{
    let mut line = Line::new();
    push(&mut line, b"error 11 line ");
    push_number(&mut line, number);
    push(&mut line, b"\n");
    line
}

/// The line that names a foreign halfword.
fn foreign_line(foreign: Foreign) -> Line
    ensures { result.items ≡ foreign_line foreign.region foreign.offset foreign.word }
{
    let mut line = Line::new();
    push(&mut line, b"error 3 foreign ");
    push(&mut line, region_name(foreign.region));
    push(&mut line, b" ");
    push_place(&mut line, foreign.offset, foreign.word);
    push(&mut line, b"\n");
    line
}

/// The line of a command that stopped.
pub(crate) fn line_of_stop(stop: Stop) -> Line
    ensures { result.items ≡ line_of_stop stop }
{
    match stop {
        Stop::Words => with_newline(b"error 1 words"),
        Stop::Memory => with_newline(b"error 2 memory"),
        Stop::Foreign(foreign) => foreign_line(foreign),
        Stop::Read => with_newline(b"error 4 read"),
        Stop::Flash => with_newline(b"error 5 flash"),
        Stop::Link => with_newline(b"error 6 link"),
        Stop::Worn => with_newline(b"error 7 worn 8192"),
        Stop::Turns(turns) => turns_line(turns),
        Stop::Attach => with_newline(b"error 13 attach"),
        Stop::Input => with_newline(b"error 9 input"),
        Stop::Script(line) => script_line(line),
    }
}
