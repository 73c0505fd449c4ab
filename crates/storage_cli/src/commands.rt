//! The top call, and the part of each command in it.
ghost use Rattle.std.specs.Prelude.{◌≡◌, ◌≢◌, ◌⊎◌, ◌≤◌, ◌-◌, ◌++◌, [], List, ℕ, length, take, None, ⊤};
ghost use Rattle.flash_traits.specs.declared.board.Fault.{Fault};
ghost use Rattle.flash_traits.specs.Words.{IsSectorSize};
ghost use Rattle.flash_traits.specs.Budget.{budget_of};
ghost use Rattle.flash_traits.specs.Causes.{Rose};
ghost use Rattle.flash_traits.specs.Losses.{Outcome};
ghost use Rattle.command_line.specs.Lines.{line_of_words};
ghost use Rattle.sector_image.specs.FirstBad.{Place, FirstBad};
ghost use Rattle.sector_image.specs.Stands.{Stands, IsUsedUp};
ghost use Rattle.block_store.specs.Refusals.{IsWorn};
ghost use Rattle.vehicle_runs.specs.Safe.{Safe};
ghost use Rattle.image_report.specs.Dumps.{IsDump};
ghost use Rattle.image_report.specs.Reports.{IsReport};
ghost use Rattle.image_report.specs.Writes.{WritesOne};
ghost use Rattle.storage_cli.specs.Texts.{PrintedLine, memory_line, turns_line};
ghost use Rattle.storage_cli.specs.Fresh.{IsFreshImage};
ghost use Rattle.storage_cli.specs.Statuses.{texts, IsStatusOf, IsServeStatus, IsReplayStatus, IsFormatStatus, IsPastAttach, IsUnasked, OnServe, OnReplay, OnOthers, OnFormat, OnDump, OnReport, OnReading, TellsFaults, ToldOutput, ToldFaults, PrintsStatus, Prints, IsCutShort, IsTextCutShort, IsForeignStatus, IsWornStatus, IsGenStatus, IsDoneUnlessMemory, NothingFailed, OnGen};
ghost use Rattle.storage_cli.specs.Replays.{AllTell, PrintsWhole, PrintsPart, PrintsLast, PrintsReplayStatus};
ghost use Rattle.storage_cli.specs.Steps.Endings.{Ends};
ghost use Rattle.storage_cli.specs.Steps.Stops.{status_of_stop, line_of_stop};
ghost use Rattle.storage_cli.specs.Steps.Printing.{IsTextOf, IsTextStatus};
ghost use Rattle.storage_cli.specs.Sessions.{PrintsSession, WearsOut};
ghost use Rattle.storage_cli.specs.Serving.{Serves, NamesForeign, HasToVoid, IsLeftAlone, LeavesLink};

use crate::format::format;
use crate::generating::generate;
use crate::printing::{ImageText, print_text, status_of_printed};
use crate::replaying::{Replayed, replay_on};
use crate::serving::serve;
use crate::status::{
    ATTACH_FAILED, DONE, FLASH_FAILED, FOREIGN_WORD, INPUT_FAILED, LINK_FAILED, NO_COMMAND,
    NO_MEMORY, OUTPUT_FAILED, READ_FAILED, SCRIPT_REFUSED, Status, TURNS_OVER, WORN,
};
use crate::stop::Stop;
use crate::texts::{digest_line, line_of_stop, served_line, session_line};
use command_line::{Command, command_of};
use flash_traits::{Board, Sink, Source};
use session_boards::one_session;
use std::alloc::{AllocError, Global};
use vehicle_runs::events_are_read_once;

/// Prints a line, and gives the status, or that of the output where it failed.
fn print<K: Sink>(out: &mut K, line: &[u8], status: u8) -> Status
    requires { status ≢ OUTPUT_FAILED }
    ensures status { (result.0 ≡ status) ⊎ (result.0 ≡ OUTPUT_FAILED) }
    ensures output { result.0 ≡ OUTPUT_FAILED → Rose (K.faults out.old) (K.faults out.new) }
    ensures counts { ToldOutput result.0 (K.faults out.old) (K.faults out.new) }
    ensures line { result.0 ≢ OUTPUT_FAILED → Prints K.Sink out.old out.new line.now }
    ensures cut { result.0 ≡ OUTPUT_FAILED → K.tells_written out.new
        → (count : ℕ) × (K.written out.new ≡ K.written out.old ++ take count line.now) }
    ensures told { K.tells_written out.new → K.tells_written out.old }
{
    match out.write_all(line) {
        Ok(()) => Status(status),
        Err(_) => Status(OUTPUT_FAILED),
    }
}

/// Prints why a command stopped.
fn print_stop<K: Sink>(out: &mut K, stop: Stop) -> Status
    ensures status { (result.0 ≡ status_of_stop stop) ⊎ (result.0 ≡ OUTPUT_FAILED) }
    ensures output { result.0 ≡ OUTPUT_FAILED → Rose (K.faults out.old) (K.faults out.new) }
    ensures counts { ToldOutput result.0 (K.faults out.old) (K.faults out.new) }
    ensures line { result.0 ≢ OUTPUT_FAILED → Prints K.Sink out.old out.new (line_of_stop stop) }
    ensures cut { result.0 ≡ OUTPUT_FAILED → K.tells_written out.new
        → IsCutShort PrintedLine (K.written out.old) (K.written out.new) }
    ensures told { K.tells_written out.new → K.tells_written out.old }
{
    let line = line_of_stop(stop);
    print(out, line.as_slice(), stop.status())
}

/// `serve`.
fn run_serve<B: Board, K: Sink>(
    alloc: Global,
    board: &mut B,
    out: &mut K,
    image: &str,
    port: u16,
    turns: u32,
) -> Status
    ensures known { IsServeStatus result.0 }
    ensures ends { Ends B.Board K.Sink board.old board.new out.old out.new result.0 }
    ensures cut_short { result.0 ≡ OUTPUT_FAILED → K.tells_written out.new
        → IsCutShort PrintedLine (K.written out.old) (K.written out.new) }
    ensures memory { result.0 ≡ NO_MEMORY → B.moment board.new ≡ B.moment board.old }
    ensures foreign { result.0 ≡ FOREIGN_WORD → NamesForeign (B.tells board.new) (B.words board.old)
        (Prints K.Sink out.old out.new) }
    ensures foreign_where { IsPastAttach result.0 (B.faults board.old) (B.faults board.new)
        → B.tells board.new → (place : Place) → FirstBad (B.words board.old) place
        → IsForeignStatus result.0 }
    ensures left_alone { IsPastAttach result.0 (B.faults board.old) (B.faults board.new)
        → B.tells board.new → (place : Place) → FirstBad (B.words board.old) place
        → IsLeftAlone B.Board board.old board.new }
    ensures worn { result.0 ≡ WORN → (bytes : _) × IsWorn B.Board board.new bytes }
    ensures worn_only { result.0 ≡ WORN → HasToVoid B.Board (B.words board.old) board.new }
    ensures foreign_idle { result.0 ≡ FOREIGN_WORD → B.moment board.new ≡ B.moment board.old }
    ensures worn_where { IsPastAttach result.0 (B.faults board.old) (B.faults board.new)
        → B.tells board.new → IsUsedUp (B.words board.old) → IsWornStatus result.0 }
    ensures losses { IsPastAttach result.0 (B.faults board.old) (B.faults board.new)
        → (b : List ℕ) → (B.tells board.old → Stands (B.words board.old) b)
        → (o : Outcome) → B.left board.new (B.moment board.old) o
        → Safe (budget_of (B.sector_bytes board.new)) b o.events o.frames
        (length o.events - 1) o.words }
    ensures serves { (result.0 ≡ DONE) ⊎ (result.0 ≡ TURNS_OVER)
        → Serves B.Board (budget_of (B.sector_bytes board.new)) (B.words board.old) board.new turns
        result.0 (Prints K.Sink out.old out.new) }
    ensures turns { result.0 ≡ TURNS_OVER → Prints K.Sink out.old out.new (turns_line turns) }
    ensures complete { NothingFailed (B.faults board.old) (B.faults board.new)
        (K.faults out.old) (K.faults out.new)
        → B.tells board.new → (b : List ℕ) → Stands (B.words board.old) b → result.0 ≢ WORN
        → IsDoneUnlessMemory result.0 ⊎ (result.0 ≡ TURNS_OVER) }
{
    match serve(alloc, board, image, port, turns) {
        Ok(served) => {
            let line = served_line(served);
            print(out, line.as_slice(), DONE)
        }
        Err(stop) => print_stop(out, stop),
    }
}

/// `replay`.
fn run_replay<B: Board, S: Source, K: Sink>(
    alloc: Global,
    board: &mut B,
    input: &mut S,
    out: &mut K,
    image: &str,
) -> Status
    ensures known { IsReplayStatus result.0 }
    ensures faults { TellsFaults result.0 (B.faults board.old) (B.faults board.new) }
    ensures input_fault { result.0 ≡ INPUT_FAILED → Rose (S.faults input.old) (S.faults input.new) }
    ensures output { result.0 ≡ OUTPUT_FAILED → Rose (K.faults out.old) (K.faults out.new) }
    ensures told { ToldFaults result.0 (B.faults board.old) (B.faults board.new)
        (S.faults input.old) (S.faults input.new) (K.faults out.old) (K.faults out.new) }
    ensures lines { PrintsReplayStatus result.0 (Prints K.Sink out.old out.new)
        (PrintsLast K.Sink out.old out.new) }
    ensures cut_short { result.0 ≡ OUTPUT_FAILED → K.tells_written out.new
        → (text : List ℕ) × (K.written out.new ≡ K.written out.old ++ text) }
    ensures unread { (result.0 ≡ READ_FAILED) ⊎ (result.0 ≡ ATTACH_FAILED)
        → input.new ≡ input.old }
    ensures foreign { result.0 ≡ FOREIGN_WORD
        → AllTell B.Board S.Source K.Sink board.new input.new out.new
        → NamesForeign (B.tells board.new) (B.words board.old) (Prints K.Sink out.old out.new) }
    ensures foreign_where { IsPastAttach result.0 (B.faults board.old) (B.faults board.new)
        → B.tells board.new → (place : Place) → FirstBad (B.words board.old) place
        → IsForeignStatus result.0 }
    ensures same_words { IsPastAttach result.0 (B.faults board.old) (B.faults board.new)
        → B.tells board.new → B.words board.new ≡ B.words board.old }
    ensures moment { B.moment board.new ≡ B.moment board.old }
    ensures replayed { result.0 ≡ DONE → AllTell B.Board S.Source K.Sink board.new input.new out.new
        → PrintsWhole (budget_of (B.sector_bytes board.new)) (B.words board.old)
        (S.rest input.old) (S.rest input.new) (K.written out.old) (K.written out.new) }
    ensures stopped { (result.0 ≡ WORN) ⊎ (result.0 ≡ INPUT_FAILED) ⊎ (result.0 ≡ SCRIPT_REFUSED)
        → AllTell B.Board S.Source K.Sink board.new input.new out.new
        → PrintsPart (budget_of (B.sector_bytes board.new)) (B.words board.old)
        (S.rest input.old) (S.rest input.new) (K.written out.old) (K.written out.new) result.0 }
    ensures memory { result.0 ≡ NO_MEMORY
        → AllTell B.Board S.Source K.Sink board.new input.new out.new
        → ((input.new ≡ input.old) × (K.written out.new ≡ K.written out.old ++ memory_line))
        ⊎ PrintsPart (budget_of (B.sector_bytes board.new)) (B.words board.old)
        (S.rest input.old) (S.rest input.new) (K.written out.old) (K.written out.new) NO_MEMORY }
    ensures complete { NothingFailed (B.faults board.old) (B.faults board.new)
        (K.faults out.old) (K.faults out.new)
        → (Rose (S.faults input.old) (S.faults input.new) → ⊥)
        → AllTell B.Board S.Source K.Sink board.new input.new out.new
        → (b : List ℕ) → Stands (B.words board.old) b
        → result.0 ≢ WORN → result.0 ≢ SCRIPT_REFUSED → IsDoneUnlessMemory result.0 }
{
    match replay_on(alloc, board, image, input, out) {
        Ok(Replayed::Whole(digest)) => {
            let line = digest_line(digest);
            print(out, line.as_slice(), DONE)
        }
        Ok(Replayed::Prefix) => Status(OUTPUT_FAILED),
        Err(stop) => print_stop(out, stop),
    }
}

/// `format`.
fn run_format<B: Board, K: Sink>(
    board: &mut B,
    out: &mut K,
    image: &str,
    sector_bytes: u32,
) -> Status
    requires { IsSectorSize sector_bytes }
    ensures known { IsFormatStatus result.0 }
    ensures ends { Ends B.Board K.Sink board.old board.new out.old out.new result.0 }
    ensures cut_short { result.0 ≡ OUTPUT_FAILED → K.tells_written out.new
        → IsCutShort PrintedLine (K.written out.old) (K.written out.new) }
    ensures no_others { (result.0 ≢ NO_MEMORY) × (result.0 ≢ FOREIGN_WORD)
        × (result.0 ≢ WORN) }
    ensures formatted { result.0 ≡ DONE → B.tells board.new
        → IsFreshImage sector_bytes (B.words board.new) }
    ensures size { IsPastAttach result.0 (B.faults board.old) (B.faults board.new)
        → B.sector_bytes board.new ≡ sector_bytes }
    ensures no_link { IsPastAttach result.0 (B.faults board.old) (B.faults board.new)
        → B.has_lists board.new [] [] }
    ensures link { LeavesLink (B.moment board.old) (B.moment board.new) }
    ensures quiet { result.0 ≡ DONE → out.new ≡ out.old }
    ensures complete { NothingFailed (B.faults board.old) (B.faults board.new)
        (K.faults out.old) (K.faults out.new)
        → IsDoneUnlessMemory result.0 }
{
    match format(board, image, sector_bytes) {
        Ok(()) => Status(DONE),
        Err(stop) => print_stop(out, stop),
    }
}

/// `dump` and `report`.
fn run_text<B: Board, K: Sink>(
    alloc: Global,
    board: &mut B,
    out: &mut K,
    image: &str,
    text: ImageText,
) -> Status
    ensures known { IsTextStatus text result.0 }
    ensures ends { Ends B.Board K.Sink board.old board.new out.old out.new result.0 }
    ensures cut_short { result.0 ≡ OUTPUT_FAILED → K.tells_written out.new
        → IsCutShort PrintedLine (K.written out.old) (K.written out.new)
        ⊎ (B.tells board.new → IsCutShort (IsTextOf text (B.words board.old))
        (K.written out.old) (K.written out.new)) }
    ensures foreign { result.0 ≡ FOREIGN_WORD → NamesForeign (B.tells board.new) (B.words board.old)
        (Prints K.Sink out.old out.new) }
    ensures foreign_where { text ≡ ImageText.Dump
        → IsPastAttach result.0 (B.faults board.old) (B.faults board.new)
        → B.tells board.new → (place : Place) → FirstBad (B.words board.old) place
        → IsForeignStatus result.0 }
    ensures prints { result.0 ≡ DONE → B.tells board.new → K.tells_written out.new
        → WritesOne (IsTextOf text (B.words board.old)) (K.written out.old) (K.written out.new) }
    ensures same_words { IsPastAttach result.0 (B.faults board.old) (B.faults board.new)
        → B.tells board.new → B.words board.new ≡ B.words board.old }
    ensures moment { B.moment board.new ≡ B.moment board.old }
    ensures complete { NothingFailed (B.faults board.old) (B.faults board.new)
        (K.faults out.old) (K.faults out.new)
        → (text ≡ ImageText.Dump
        → B.tells board.new × ((b : List ℕ) × Stands (B.words board.old) b))
        → IsDoneUnlessMemory result.0 }
{
    match print_text(alloc, board, out, image, text) {
        Ok(printed) => Status(status_of_printed(printed)),
        Err(stop) => print_stop(out, stop),
    }
}

/// `gen`.
fn run_gen<K: Sink>(alloc: Global, out: &mut K, rounds: u16) -> Status
    requires { (1 ≤ rounds) × (rounds ≤ 1000) }
    ensures known { IsGenStatus result.0 }
    ensures no_others { (result.0 ≢ NO_COMMAND) × (result.0 ≢ FOREIGN_WORD)
        × (result.0 ≢ READ_FAILED) × (result.0 ≢ FLASH_FAILED) × (result.0 ≢ LINK_FAILED)
        × (result.0 ≢ TURNS_OVER) × (result.0 ≢ ATTACH_FAILED) }
    ensures output { result.0 ≡ OUTPUT_FAILED → Rose (K.faults out.old) (K.faults out.new) }
    ensures counts { ToldOutput result.0 (K.faults out.old) (K.faults out.new) }
    ensures lines { PrintsStatus result.0 (Prints K.Sink out.old out.new) }
    ensures cut_short { result.0 ≡ OUTPUT_FAILED → K.tells_written out.new
        → IsCutShort PrintedLine (K.written out.old) (K.written out.new) }
    ensures generated { result.0 ≡ DONE → PrintsSession rounds (Prints K.Sink out.old out.new) }
    ensures worn { result.0 ≡ WORN → WearsOut rounds }
{
    one_session();
    events_are_read_once();
    match generate(alloc, rounds) {
        Ok(summary) => {
            let line = session_line(summary);
            print(out, line.as_slice(), DONE)
        }
        Err(stop) => print_stop(out, stop),
    }
}

/// Does what the words ask for, and prints one line or one text. The words don't include the
/// program's name.
///
/// `serve IMAGE [--port P] [--turns N]` attaches the image and serves it to up to eight ground
/// stations, until the end comes or N events are finished; the lines that wait are then put.
/// `replay IMAGE` runs the script of the input over a copy of the image in memory, and prints the
/// frames, the losses and the digest of the storage bytes; the image itself is only read.
/// `format IMAGE [--sector S]` makes a fresh image. `dump IMAGE` prints what an image stands for,
/// and `report IMAGE` how each part of any image is. `gen N` runs a generated session of N rounds
/// in memory, and asks nothing of the board. Only a replay reads the input.
///
/// The words are tested first, then the attach, then the image, and then come the events or the
/// lines of the script. Memory is taken while the words are read, before an image is first read,
/// and at each opening of a replay.
pub fn run<'a, B: Board, S: Source, K: Sink>(
    alloc: Global,
    words: &'a [&'a str],
    board: &mut B,
    input: &mut S,
    out: &mut K,
) -> Status
    // Which statuses each command has, and words that are no command.
    ensures known { IsStatusOf (line_of_words (texts words.entry.now)) result.0 }
    ensures no_command { result.0 ≡ NO_COMMAND → line_of_words (texts words.entry.now) ≡ None }
    ensures no_command_where { line_of_words (texts words.entry.now) ≡ None
        → (result.0 ≡ NO_COMMAND) ⊎ (result.0 ≡ NO_MEMORY) ⊎ (result.0 ≡ OUTPUT_FAILED) }
    ensures untouched { line_of_words (texts words.entry.now) ≡ None → board.new ≡ board.old }
    ensures gen_untouched { OnGen (texts words.entry.now) ⊤ (λ rounds. board.new ≡ board.old) }
    ensures unread { OnOthers (texts words.entry.now) ⊤ (input.new ≡ input.old) }
    ensures replay_unread { OnReplay (texts words.entry.now)
        ((result.0 ≡ READ_FAILED) ⊎ (result.0 ≡ ATTACH_FAILED)) (input.new ≡ input.old) }

    // A fault is told only where the count of its kind rose.
    ensures attach_fault { result.0 ≡ ATTACH_FAILED
        → Rose (B.faults board.old Fault.Attach) (B.faults board.new Fault.Attach) }
    ensures read_fault { result.0 ≡ READ_FAILED
        → Rose (B.faults board.old Fault.Read) (B.faults board.new Fault.Read) }
    ensures flash_fault { result.0 ≡ FLASH_FAILED
        → Rose (B.faults board.old Fault.Flash) (B.faults board.new Fault.Flash) }
    ensures link_fault { result.0 ≡ LINK_FAILED
        → Rose (B.faults board.old Fault.Recv) (B.faults board.new Fault.Recv)
        ⊎ Rose (B.faults board.old Fault.Send) (B.faults board.new Fault.Send) }
    ensures input_fault { result.0 ≡ INPUT_FAILED → Rose (S.faults input.old) (S.faults input.new) }
    ensures output_fault { result.0 ≡ OUTPUT_FAILED → Rose (K.faults out.old) (K.faults out.new) }

    // And no count changes that the status doesn't tell: at the first failure nothing more is asked
    // of the object that failed.
    ensures told_faults { ToldFaults result.0 (B.faults board.old) (B.faults board.new)
        (S.faults input.old) (S.faults input.new) (K.faults out.old) (K.faults out.new) }

    // One line is printed, by the status, or the text of a dump or a report, or what a replay comes
    // to and then its line, and nothing more where that failed.
    ensures lines { OnOthers (texts words.entry.now) ⊤
        (PrintsStatus result.0 (Prints K.Sink out.old out.new)) }
    ensures replay_lines { OnReplay (texts words.entry.now) ⊤
        (PrintsReplayStatus result.0 (Prints K.Sink out.old out.new)
        (PrintsLast K.Sink out.old out.new)) }
    ensures cut_short { result.0 ≡ OUTPUT_FAILED → K.tells_written out.new
        → IsCutShort PrintedLine (K.written out.old) (K.written out.new)
        ⊎ IsTextCutShort (line_of_words (texts words.entry.now)) (B.tells board.new)
        (B.words board.old) (K.written out.old) (K.written out.new) }

    // Where memory is wanting nothing was programmed, erased, received or sent; a format hasn't
    // asked anything of the board.
    ensures memory { result.0 ≡ NO_MEMORY → B.moment board.new ≡ B.moment board.old }
    ensures format_memory { OnFormat (texts words.entry.now) (result.0 ≡ NO_MEMORY)
        (λ sector_bytes. board.new ≡ board.old) }

    // A foreign halfword is told exactly where there is one, unless memory is wanting, or a call or
    // the output fails. Nothing is programmed, erased, received or sent then, and where a serve
    // finds a foreign halfword the words are left alone, whatever the status. Which one a replay
    // names is known only where the source and the sink tell their bytes too.
    ensures foreign { OnOthers (texts words.entry.now) (result.0 ≡ FOREIGN_WORD)
        (NamesForeign (B.tells board.new) (B.words board.old) (Prints K.Sink out.old out.new)) }
    ensures replay_foreign { OnReplay (texts words.entry.now) (result.0 ≡ FOREIGN_WORD)
        (AllTell B.Board S.Source K.Sink board.new input.new out.new
        → NamesForeign (B.tells board.new) (B.words board.old) (Prints K.Sink out.old out.new)) }
    ensures foreign_idle { result.0 ≡ FOREIGN_WORD → B.moment board.new ≡ B.moment board.old }
    ensures foreign_where { OnServe (texts words.entry.now)
        (IsPastAttach result.0 (B.faults board.old) (B.faults board.new)) (λ turns.
        B.tells board.new → (place : Place) → FirstBad (B.words board.old) place
        → IsForeignStatus result.0) }
    ensures left_alone { OnServe (texts words.entry.now)
        (IsPastAttach result.0 (B.faults board.old) (B.faults board.new)) (λ turns.
        B.tells board.new → (place : Place) → FirstBad (B.words board.old) place
        → IsLeftAlone B.Board board.old board.new) }
    ensures dump_foreign_where { OnDump (texts words.entry.now)
        (IsPastAttach result.0 (B.faults board.old) (B.faults board.new))
        (B.tells board.new → (place : Place) → FirstBad (B.words board.old) place
        → IsForeignStatus result.0) }
    ensures replay_foreign_where { OnReplay (texts words.entry.now)
        (IsPastAttach result.0 (B.faults board.old) (B.faults board.new))
        (B.tells board.new → (place : Place) → FirstBad (B.words board.old) place
        → IsForeignStatus result.0) }

    // A guard row that is used up leaves the image spilled with every chunk copied, and it is told
    // where the image that is attached has a sector to be voided, unless memory is wanting, or a
    // call or the output fails before.
    ensures worn { OnServe (texts words.entry.now) (result.0 ≡ WORN) (λ turns.
        (bytes : _) × IsWorn B.Board board.new bytes) }
    ensures worn_only { OnServe (texts words.entry.now) (result.0 ≡ WORN) (λ turns.
        HasToVoid B.Board (B.words board.old) board.new) }
    ensures worn_where { OnServe (texts words.entry.now)
        (IsPastAttach result.0 (B.faults board.old) (B.faults board.new)) (λ turns.
        B.tells board.new → IsUsedUp (B.words board.old) → IsWornStatus result.0) }

    // What power losses leave of a serve: at every exit after its attach, whatever the status, each
    // loss since then leaves words that stand for the bytes of the start with a prefix of the
    // issued lines, every flushed one among them, and frames that are the first answers of the
    // vehicle.
    ensures losses { OnServe (texts words.entry.now)
        (IsPastAttach result.0 (B.faults board.old) (B.faults board.new)) (λ turns.
        IsUnasked result.0 (board.new ≡ board.old)
        ⊎ ((b : List ℕ) → (B.tells board.old → Stands (B.words board.old) b)
        → (o : Outcome) → B.left board.new (B.moment board.old) o
        → Safe (budget_of (B.sector_bytes board.new)) b o.events o.frames
        (length o.events - 1) o.words)) }

    // What a serve has done that came to the end, or to the last of its turns. The guard row was
    // used up nowhere where a sector was to be voided.
    ensures serves { OnServe (texts words.entry.now)
        ((result.0 ≡ DONE) ⊎ (result.0 ≡ TURNS_OVER)) (λ turns.
        Serves B.Board (budget_of (B.sector_bytes board.new)) (B.words board.old) board.new turns
        result.0 (Prints K.Sink out.old out.new)) }
    ensures turns { OnServe (texts words.entry.now) (result.0 ≡ TURNS_OVER) (λ turns.
        Prints K.Sink out.old out.new (turns_line turns)) }

    // What a replay prints, where the board, the source and the sink tell: at status 0 the lines of
    // a history of runs over all lines of the script, and the digest of the bytes that are left; at
    // 7, 9 and 11 those of a history that is cut short, and the line of its stop; at 2 the same, or
    // nothing but the line, before the script is read.
    ensures replayed { OnReplay (texts words.entry.now) (result.0 ≡ DONE)
        (AllTell B.Board S.Source K.Sink board.new input.new out.new
        → PrintsWhole (budget_of (B.sector_bytes board.new)) (B.words board.old)
        (S.rest input.old) (S.rest input.new) (K.written out.old) (K.written out.new)) }
    ensures replay_stopped { OnReplay (texts words.entry.now)
        ((result.0 ≡ WORN) ⊎ (result.0 ≡ INPUT_FAILED) ⊎ (result.0 ≡ SCRIPT_REFUSED))
        (AllTell B.Board S.Source K.Sink board.new input.new out.new
        → PrintsPart (budget_of (B.sector_bytes board.new)) (B.words board.old)
        (S.rest input.old) (S.rest input.new) (K.written out.old) (K.written out.new) result.0) }
    ensures replay_memory { OnReplay (texts words.entry.now) (result.0 ≡ NO_MEMORY)
        (AllTell B.Board S.Source K.Sink board.new input.new out.new
        → ((input.new ≡ input.old) × (K.written out.new ≡ K.written out.old ++ memory_line))
        ⊎ PrintsPart (budget_of (B.sector_bytes board.new)) (B.words board.old)
        (S.rest input.old) (S.rest input.new) (K.written out.old) (K.written out.new) NO_MEMORY) }

    // What a format has made, with no event received, no frame sent and nothing printed.
    ensures formatted { OnFormat (texts words.entry.now) (result.0 ≡ DONE) (λ sector_bytes.
        B.tells board.new → IsFreshImage sector_bytes (B.words board.new)) }
    ensures size { OnFormat (texts words.entry.now)
        (IsPastAttach result.0 (B.faults board.old) (B.faults board.new)) (λ sector_bytes.
        IsUnasked result.0 (board.new ≡ board.old) ⊎ (B.sector_bytes board.new ≡ sector_bytes)) }
    ensures no_link { OnFormat (texts words.entry.now)
        (IsPastAttach result.0 (B.faults board.old) (B.faults board.new)) (λ sector_bytes.
        IsUnasked result.0 (board.new ≡ board.old) ⊎ B.has_lists board.new [] []) }
    ensures link { OnFormat (texts words.entry.now) ⊤ (λ sector_bytes.
        LeavesLink (B.moment board.old) (B.moment board.new)) }
    ensures quiet { OnFormat (texts words.entry.now) (result.0 ≡ DONE) (λ sector_bytes.
        out.new ≡ out.old) }

    // What a dump and a report print, where the board tells its words and the sink its bytes: one
    // text of the words, and no line.
    ensures dumps { OnDump (texts words.entry.now) (result.0 ≡ DONE)
        (B.tells board.new → K.tells_written out.new
        → WritesOne (IsDump (B.words board.old)) (K.written out.old) (K.written out.new)) }
    ensures reports { OnReport (texts words.entry.now) (result.0 ≡ DONE)
        (B.tells board.new → K.tells_written out.new
        → WritesOne (IsReport (B.words board.old)) (K.written out.old) (K.written out.new)) }

    // Both only read, and so does a replay: whatever the status, the words after the attach are
    // those of the start, and nothing was programmed, erased, received or sent.
    ensures same_words { OnReading (texts words.entry.now)
        (IsPastAttach result.0 (B.faults board.old) (B.faults board.new))
        (B.tells board.new → B.words board.new ≡ B.words board.old) }
    ensures only_reads { OnReading (texts words.entry.now) ⊤
        (B.moment board.new ≡ B.moment board.old) }

    // What a gen prints: the summary of its session, run from a fresh image on. There is a session
    // of so many rounds, and whichever one is taken has this line: their number alone decides it.
    ensures generated { OnGen (texts words.entry.now) (result.0 ≡ DONE) (λ rounds.
        PrintsSession rounds (Prints K.Sink out.old out.new)) }

    // A gen has worn its guard row only after lines enough: the events that its run received, which
    // are the first of its session, issue at least 4,095 lines with those of boot.
    ensures gen_worn { OnGen (texts words.entry.now) (result.0 ≡ WORN) (λ rounds.
        WearsOut rounds) }

    // Where no call failed, the words are told and the image stands, a command does all of its
    // work, unless memory is wanting; a serve may also use up its turns or the guard row, and of a
    // replay the guard row may be used up, or a line of the script refused.
    ensures serve_complete { OnServe (texts words.entry.now)
        (NothingFailed (B.faults board.old) (B.faults board.new)
        (K.faults out.old) (K.faults out.new))
        (λ turns. B.tells board.new → (b : List ℕ) → Stands (B.words board.old) b → result.0 ≢ WORN
        → IsDoneUnlessMemory result.0 ⊎ (result.0 ≡ TURNS_OVER)) }
    ensures replay_complete { OnReplay (texts words.entry.now)
        (NothingFailed (B.faults board.old) (B.faults board.new)
        (K.faults out.old) (K.faults out.new))
        ((Rose (S.faults input.old) (S.faults input.new) → ⊥)
        → AllTell B.Board S.Source K.Sink board.new input.new out.new
        → (b : List ℕ) → Stands (B.words board.old) b
        → result.0 ≢ WORN → result.0 ≢ SCRIPT_REFUSED → IsDoneUnlessMemory result.0) }
    ensures format_complete { OnFormat (texts words.entry.now)
        (NothingFailed (B.faults board.old) (B.faults board.new)
        (K.faults out.old) (K.faults out.new))
        (λ sector_bytes. IsDoneUnlessMemory result.0) }
    ensures dump_complete { OnDump (texts words.entry.now)
        (NothingFailed (B.faults board.old) (B.faults board.new)
        (K.faults out.old) (K.faults out.new))
        (B.tells board.new → (b : List ℕ) → Stands (B.words board.old) b
        → IsDoneUnlessMemory result.0) }
    ensures report_complete { OnReport (texts words.entry.now)
        (NothingFailed (B.faults board.old) (B.faults board.new)
        (K.faults out.old) (K.faults out.new))
        (IsDoneUnlessMemory result.0) }
    ensures gen_complete { OnGen (texts words.entry.now)
        (NothingFailed (B.faults board.old) (B.faults board.new)
        (K.faults out.old) (K.faults out.new))
        (λ rounds. result.0 ≢ WORN → IsDoneUnlessMemory result.0) }
{
    match command_of(alloc, words) {
        Ok(Some(Command::Serve { image, port, turns })) => {
            run_serve(alloc, board, out, image, port, turns)
        }
        Ok(Some(Command::Replay { image })) => run_replay(alloc, board, input, out, image),
        Ok(Some(Command::Format { image, sector })) => run_format(board, out, image, sector),
        Ok(Some(Command::Dump { image })) => run_text(alloc, board, out, image, ImageText::Dump),
        Ok(Some(Command::Report { image })) => {
            run_text(alloc, board, out, image, ImageText::Report)
        }
        Ok(Some(Command::Gen { rounds })) => run_gen(alloc, out, rounds),
        Ok(None) => print_stop(out, Stop::Words),
        Err(AllocError) => print_stop(out, Stop::Memory),
    }
}
