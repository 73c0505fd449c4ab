//! A `dump` and a `report`: a text of the image is printed.
ghost use Rattle.std.specs.Prelude.{◌≡◌, List, ℕ, OnOk, OnErr, IfOk, IfErr, IsErr};
ghost use Rattle.flash_traits.specs.declared.board.Fault.TheVariants.{Read};
ghost use Rattle.flash_traits.specs.Words.{IsSectorSize};
ghost use Rattle.flash_traits.specs.Causes.{counts_after, told_by};
ghost use Rattle.sector_image.specs.FirstBad.{Place, FirstBad};
ghost use Rattle.sector_image.specs.Stands.{Stands};
ghost use Rattle.image_report.specs.Refusals.{OnForeign, OnFault, OnOutput, BeforeOutput, OnceRead, fault_in, sink_count_after};
ghost use Rattle.image_report.specs.Writes.{WritesOne};
ghost use Rattle.storage_cli.specs.Steps.Stops.{IsAttached, IsFirst, StopsByCause};
ghost use Rattle.storage_cli.specs.Steps.Printing.{IsTextOf, IsRefusing, IsTextStop, OnWhole, OnPrefix, ending_of, sink_count_at, status_of_printed};
ghost use Rattle.storage_cli.specs.Statuses.{IsCutShort};

use crate::status::{DONE, OUTPUT_FAILED};
use crate::stop::{Foreign, Stop};
use flash_traits::{Board, Sink};
use image_report::{ReportError, dump, report};
use std::alloc::Global;

/// A text of an image.
#[derive(Clone, Copy, Debug, PartialEq, Eq)]
pub(crate) enum ImageText {
    /// What an image stands for.
    Dump,
    /// How each part of any words is.
    Report,
}

/// How far a text was printed.
#[derive(Clone, Copy, Debug, PartialEq, Eq)]
pub(crate) enum Printed {
    Whole,
    /// The output failed after a prefix.
    Prefix,
}

/// The status where a text was printed so far.
pub(crate) fn status_of_printed(printed: Printed) -> u8
    ensures { result ≡ status_of_printed printed }
{
    match printed {
        Printed::Whole => DONE,
        Printed::Prefix => OUTPUT_FAILED,
    }
}

/// How a command ends where its text isn't printed as a whole.
fn ending_of(error: ReportError) -> Result<Printed, Stop>
    ensures { result ≡ ending_of error }
{
    match error {
        ReportError::Memory => Err(Stop::Memory),
        ReportError::Fault(kind) => Err(Stop::from(kind)),
        ReportError::Foreign {
            region,
            offset,
            word,
        } => Err(Stop::Foreign(Foreign {
            region,
            offset,
            word,
        })),
        ReportError::Output => Ok(Printed::Prefix),
    }
}

/// Prints a text of the attached image.
fn write_text<B: Board, K: Sink>(
    alloc: Global,
    board: &mut B,
    out: &mut K,
    text: ImageText,
) -> Result<(), ReportError>
    requires attached { IsSectorSize (B.sector_bytes board.old) }
    ensures whole { OnOk result (B.tells board.new → K.tells_written out.new
        → WritesOne (IsTextOf text (B.words board.old)) (K.written out.old) (K.written out.new)) }
    ensures prefix { IfErr result (λ e. OnOutput e (B.tells board.new → K.tells_written out.new
        → IsCutShort (IsTextOf text (B.words board.old)) (K.written out.old) (K.written out.new))) }
    ensures quiet { IfErr result (λ e. BeforeOutput e (out.new ≡ out.old)) }
    ensures foreign { IfErr result (λ e. OnForeign e (λ place. IsRefusing text)) }
    ensures first { IfErr result (λ e. OnForeign e (λ place. B.tells board.new
        → FirstBad (B.words board.old) place)) }
    ensures stands { text ≡ ImageText.Dump → OnceRead result (B.tells board.new
        → (bytes : List ℕ) × Stands (B.words board.old) bytes) }
    ensures fault { IfErr result (λ e. OnFault e (λ kind. kind ≡ Read)) }
    ensures counts { B.faults board.new
        ≡ counts_after (told_by fault_in result) (B.faults board.old) }
    ensures output { K.faults out.new ≡ sink_count_after result (K.faults out.old) }
    ensures told { B.tells board.new → B.tells board.old }
    ensures same_words { B.tells board.new → B.words board.new ≡ B.words board.old }
    ensures moment { B.moment board.new ≡ B.moment board.old }
{
    match text {
        ImageText::Dump => dump(alloc, board, out),
        ImageText::Report => report(alloc, board, out),
    }
}

/// Attaches an image and prints a text of it. Nothing is written before an error.
pub(crate) fn print_text<B: Board, K: Sink>(
    alloc: Global,
    board: &mut B,
    out: &mut K,
    image: &str,
    text: ImageText,
) -> Result<Printed, Stop>
    ensures whole { IfOk result (λ printed. OnWhole printed (
        B.tells board.new → K.tells_written out.new
        → WritesOne (IsTextOf text (B.words board.old)) (K.written out.old) (K.written out.new))) }
    ensures prefix { IfOk result (λ printed. OnPrefix printed (
        B.tells board.new → K.tells_written out.new
        → IsCutShort (IsTextOf text (B.words board.old)) (K.written out.old) (K.written out.new))) }
    ensures output { IfOk result (λ printed.
        K.faults out.new ≡ sink_count_at printed (K.faults out.old)) }
    ensures quiet { OnErr result (out.new ≡ out.old) }
    ensures stops { IfErr result (IsTextStop text) }
    ensures cause { StopsByCause (B.faults board.old) (B.faults board.new) result }
    ensures foreign { B.tells board.new → IfErr result (IsFirst (B.words board.old)) }
    ensures foreign_where { text ≡ ImageText.Dump → B.tells board.new
        → (place : Place) → FirstBad (B.words board.old) place → IsErr result }
    ensures same_words { IsAttached result → B.tells board.new
        → B.words board.new ≡ B.words board.old }
    ensures moment { B.moment board.new ≡ B.moment board.old }
{
    if board.attach(image, 0, None).is_err() {
        return Err(Stop::Attach);
    }
    match write_text(alloc, board, out, text) {
        Ok(()) => Ok(Printed::Whole),
        Err(error) => ending_of(error),
    }
}
