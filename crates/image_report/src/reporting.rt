//! How each part of an image is, as text.
ghost use Rattle.std.specs.Prelude.{◌≡◌, ◌≤◌, ◌+◌, ◌++◌, length, IfOk, OnOk, IfErr};
ghost use Rattle.flash_traits.specs.declared.board.Fault.TheVariants.{Read};
ghost use Rattle.flash_traits.specs.Words.{IsSectorSize};
ghost use Rattle.flash_traits.specs.Causes.{counts_after, told_by};
ghost use Rattle.sector_log.specs.Storage.{storage_bytes};
ghost use Rattle.flash_traits.specs.Calls.{OnlyReads};
ghost use Rattle.image_report.specs.Refusals.{OnForeign, OnFault, OnMemory, BeforeOutput};
ghost use Rattle.image_report.specs.Refusals.{fault_in, sink_count_after};
ghost use Rattle.image_report.specs.Reports as reports;
ghost use Rattle.image_report.specs.Reports.{IsReport, report_text};
ghost use Rattle.image_report.specs.Writes.{WritesOne, WritesPrefix};
ghost use Rattle.image_report.specs.Steps.Writes.{Writes};

use crate::ReportError;
use crate::findings::{Findings, GuardFound, SectorFound, findings_of};
use crate::lines::{push_foreign, push_size, shape_name};
use crate::output::write;
use arrayvec::ArrayVec;
use flash_traits::{Board, Failed, Region, Sink};
use printed_text::{LINE_BYTES, Line, mark_name, push, push_number, region_name};
use sector_image::{Images, Shape};
use sector_log::Log;
use std::alloc::Global;
use storage_lines::STORAGE_BYTES;

/// Room for five lines.
const TEXT_BYTES: usize = 400;

/// The five lines.
type Text = ArrayVec<u8, TEXT_BYTES>;

/// The first line: the sector size.
fn image_line(sector_bytes: u32) -> Line
    ensures { result.items ≡ reports.image_line sector_bytes }
{
    let mut line = Line::new();
    push_size(&mut line, sector_bytes);
    push(&mut line, b"\n");
    line
}

/// What the guard row says.
fn guard_line(guard: GuardFound) -> Line
    ensures { result.items ≡ reports.guard_line guard }
{
    let mut line = Line::new();
    push(&mut line, b"guard ");
    match guard {
        GuardFound::Count(count) => push_number(&mut line, count),
        GuardFound::Foreign { offset, word } => push_foreign(&mut line, offset, word),
    }
    push(&mut line, b"\n");
    line
}

/// The bytes after a log.
fn free_of(sector_bytes: u32, log: Log) -> u32
    ensures { result ≡ reports.free_of sector_bytes log }
{
    let used = 2 * log.end as u64;
    (sector_bytes as u64).saturating_sub(used) as u32
}

/// The mark of a log, its entries, and what is free.
fn push_log(line: &mut Line, sector_bytes: u32, log: Log)
    requires { length line.old.items + 60 ≤ LINE_BYTES }
    ensures bytes { line.new.items ≡ line.old.items
        ++ reports.sector_text sector_bytes (SectorFound.Log log) }
    ensures len { length line.new.items ≤ length line.old.items + 60 }
{
    push(line, mark_name(log.mark));
    push(line, b" entries ");
    push_number(line, log.valid);
    push(line, b" torn ");
    push_number(line, log.gaps);
    push(line, b" free ");
    push_number(line, free_of(sector_bytes, log));
}

/// What a sector is, judged by itself.
fn sector_line(sector_bytes: u32, region: Region, sector: SectorFound) -> Line
    ensures { result.items ≡ reports.sector_line sector_bytes region sector }
{
    let mut line = Line::new();
    push(&mut line, region_name(region));
    push(&mut line, b" ");
    match sector {
        SectorFound::Void => push(&mut line, b"void"),
        SectorFound::Log(log) => push_log(&mut line, sector_bytes, log),
        SectorFound::Foreign { offset, word } => push_foreign(&mut line, offset, word),
    }
    push(&mut line, b"\n");
    line
}

/// The state of the whole image.
fn state_line(state: Option<Shape>) -> Line
    ensures { result.items ≡ reports.state_line state }
{
    let mut line = Line::new();
    push(&mut line, b"state ");
    match state {
        Some(shape) => push(&mut line, shape_name(shape)),
        None => push(&mut line, b"foreign"),
    }
    push(&mut line, b"\n");
    line
}

/// Appends a line.
fn append(text: &mut Text, line: &Line)
    requires { length text.old.items + LINE_BYTES ≤ TEXT_BYTES }
    ensures bytes { text.new.items ≡ text.old.items ++ line.now.items }
    ensures len { length text.new.items ≤ length text.old.items + LINE_BYTES }
{
    match text.try_extend_from_slice(line.as_slice()) {
        Ok(()) => {}
        Err(_) => unreachable!(),
    }
}

/// The five lines.
#[tactic(auto, unfolding(crate::specs::Reports::report_text))]
fn text_of(sector_bytes: u32, findings: &Findings) -> Text
    ensures { result.items ≡ report_text sector_bytes findings.now }
{
    let mut text = Text::new();
    append(&mut text, &image_line(sector_bytes));
    append(&mut text, &guard_line(findings.guard));
    append(
        &mut text,
        &sector_line(sector_bytes, Region::S0, findings.s0),
    );
    append(
        &mut text,
        &sector_line(sector_bytes, Region::S1, findings.s1),
    );
    append(&mut text, &state_line(findings.state));
    text
}

/// Writes the whole text in one piece.
fn write_report<K: Sink>(out: &mut K, sector_bytes: u32, findings: &Findings) -> Result<(), Failed>
    ensures { Writes K.Sink out.old out.new result (report_text sector_bytes findings.now) }
{
    write(out, text_of(sector_bytes, findings).as_slice())
}

/// Prints how the parts of an image are, whatever its words: its sector size, the guard row, each
/// sector judged by itself, and its state. Nothing is programmed.
///
/// The words are read before the first byte is written.
pub fn report<B: Board, K: Sink>(
    alloc: Global,
    board: &mut B,
    out: &mut K,
) -> Result<(), ReportError>
    requires attached { IsSectorSize (B.sector_bytes board.old) }

    // What is written, where the words and the bytes are told: the whole text at Ok, never more
    // than a prefix of it, and nothing before the words were read.
    ensures text { OnOk result (B.tells board.new → K.tells_written out.new
        → WritesOne (IsReport (B.words board.old)) (K.written out.old) (K.written out.new)) }
    ensures prefix { B.tells board.new → K.tells_written out.new
        → WritesPrefix (IsReport (B.words board.old)) (K.written out.old) (K.written out.new) }
    ensures quiet { IfErr result (λ e. BeforeOutput e (out.new ≡ out.old)) }
    ensures told { K.tells_written out.new → K.tells_written out.old }

    // No count of faults changes that isn't told, and one that is told rises by one. Want of memory
    // is told before anything was read or written. No words are refused.
    ensures never_foreign { IfErr result (λ e. OnForeign e (λ place. ⊥)) }
    ensures fault { IfErr result (λ e. OnFault e (λ kind. kind ≡ Read)) }
    ensures counts { B.faults board.new
        ≡ counts_after (told_by fault_in result) (B.faults board.old) }
    ensures output { K.faults out.new ≡ sink_count_after result (K.faults out.old) }
    ensures memory { IfErr result (λ e. OnMemory e (board.new ≡ board.old)) }
    ensures reads { OnlyReads B.Board board.old board.new }
{
    let mut images = Images::new(alloc)?;
    let mut buffer = vec![in alloc; 0u8; STORAGE_BYTES]?;
    let sector_bytes = board.geometry().sector_bytes;
    let findings = findings_of(board, &mut images, &mut buffer)?;
    write_report(out, sector_bytes, &findings)?;
    Ok(())
}
