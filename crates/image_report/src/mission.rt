//! The mission of an image: how many commands it has, and a line for each.
ghost use Rattle.std.specs.Prelude.{◌≡◌, ◌<◌, length, slice_get};
ghost use Rattle.mission_commands.specs.declared.commands.Command.{Command};
ghost use Rattle.mission_records.specs.Mission.{total_of, mission_of};
ghost use Rattle.sector_log.specs.Storage.{storage_bytes};
ghost use Rattle.image_report.specs.Dumps as dumps;
ghost use Rattle.image_report.specs.Steps.Writes.{Writes};

use crate::output::write;
use flash_traits::{Failed, Sink};
use mission_commands::Command;
use mission_records::{at, total};
use printed_text::{Line, push, push_hex, push_number};

/// The number of commands.
fn mission_line(count: u16) -> Line
    ensures { result.items ≡ dumps.mission_line count }
{
    let mut line = Line::new();
    push(&mut line, b"mission ");
    push_number(&mut line, count);
    push(&mut line, b"\n");
    line
}

/// A command with its index.
fn command_line(index: u16, command: &Command) -> Line
    ensures { result.items ≡ dumps.command_line index command.now }
{
    let mut line = Line::new();
    push(&mut line, b"command ");
    push_number(&mut line, index);
    push(&mut line, b" ");
    push_number(&mut line, command.id);
    push(&mut line, b" ");
    push_number(&mut line, command.p1);
    push(&mut line, b" ");
    push_hex(&mut line, &command.content);
    push(&mut line, b"\n");
    line
}

/// Writes the line of one command.
fn write_command<K: Sink>(out: &mut K, bytes: &[u8], index: u16) -> Result<(), Failed>
    requires size { length bytes.now ≡ storage_bytes }
    requires inside { index < total_of bytes.now }
    ensures { (command : Command) × (slice_get (mission_of bytes.now) index ≡ Some command)
        × Writes K.Sink out.old out.new result (dumps.command_line index command) }
{
    match at(bytes, index) {
        Some(command) => write(out, command_line(index, &command).as_slice()),
        None => unreachable!(),
    }
}

/// Writes a line for each command, in their order.
fn write_commands<K: Sink>(out: &mut K, bytes: &[u8]) -> Result<(), Failed>
    requires { length bytes.now ≡ storage_bytes }
    ensures { Writes K.Sink out.old out.new result
        (dumps.numbered_lines dumps.command_line (mission_of bytes.now)) }
{
    let count = total(bytes);
    for index in 0..count {
        write_command(out, bytes, index)?;
    }
    Ok(())
}

/// Writes the number of commands, and a line for each.
pub(crate) fn write_mission<K: Sink>(out: &mut K, bytes: &[u8]) -> Result<(), Failed>
    requires { length bytes.now ≡ storage_bytes }
    ensures { Writes K.Sink out.old out.new result (dumps.mission_lines bytes.now) }
{
    write(out, mission_line(total(bytes)).as_slice())?;
    write_commands(out, bytes)
}
