//! The opening of a node: the lines of boot are issued before anything is heard or sent.
ghost use Rattle.std.specs.Prelude.{◌≡◌, ◌<◌, ◌≤◌, ◌+◌, ◌++◌, [], length, slice_get, IfSome};
ghost use Rattle.storage_lines.specs.Bytes.{AreInside};
ghost use Rattle.param_tree.specs.Rows.{vehicle_rows};
ghost use Rattle.param_convert.specs.Rules.{vehicle_rules};
ghost use Rattle.block_store.specs.Store.{durable_of};
ghost use Rattle.dirty_lines.specs.Lines.{lines_of, current_of};
ghost use Rattle.vehicle_runs.specs.Runs.{format_step, convert_step, boot};
ghost use Rattle.vehicle_node.specs.Standing.{counts};
ghost use Rattle.vehicle_node.specs.Steps.Opening.{IsBooted};

use crate::Node;
use dirty_lines::{DirtyLines, PENDING_LINES};
use mav_frames::Cutter;
use param_convert::{Rule, convert, vehicle_rules};
use param_records::{APPEND_LINES, FORMAT_LINES, format_batch};
use param_tree::{PARAMETERS, Table, vehicle_table};
use storage_lines::Batch;
use vehicle_core::Core;

/// Issues the lines of a step of boot, for which there is room.
fn issue_step(lines: &mut DirtyLines, batch: &Batch)
    requires inside { AreInside batch.now.items }
    requires room { length lines.old.pending + length batch.now.items ≤ PENDING_LINES }
    ensures { lines.new ≡ lines_of lines.old.store (lines.old.pending ++ batch.now.items) }
{
    match lines.issue(batch) {
        Ok(()) => {}
        Err(_) => unreachable!(),
    }
}

/// Issues the formatting, where it is due.
fn issue_formatting(lines: &mut DirtyLines)
    requires nothing { lines.old.pending ≡ [] }
    ensures issued { lines.new
        ≡ lines_of lines.old.store (format_step (durable_of lines.old.store)) }
    ensures few { length lines.new.pending ≤ FORMAT_LINES }
{
    let mut batch = Batch::new();
    let _ = format_batch(lines.current(), &mut batch);
    issue_step(lines, &batch);
}

/// Issues the lines of one rule of conversion.
fn issue_conversion(
    lines: &mut DirtyLines,
    table: &Table<PARAMETERS>,
    rules: &[Rule; 4],
    step: usize,
)
    requires table { table.now ≡ vehicle_rows }
    requires rules { rules.now ≡ vehicle_rules }
    requires step { step < 4 }
    requires room { length lines.old.pending + APPEND_LINES ≤ PENDING_LINES }
    ensures issued { IfSome (slice_get vehicle_rules step) (λ rule. lines.new ≡ lines_of
        lines.old.store (lines.old.pending ++ convert_step rule (current_of lines.old))) }
    ensures few { length lines.new.pending ≤ length lines.old.pending + APPEND_LINES }
{
    let mut batch = Batch::new();
    let _ = convert(lines.current(), table, rules, step, &mut batch);
    issue_step(lines, &batch);
}

/// Issues the lines of boot, and says how many they are.
fn issue_boot(lines: &mut DirtyLines) -> u64
    requires nothing { lines.old.pending ≡ [] }
    ensures lines { lines.new ≡ lines_of lines.old.store (boot (durable_of lines.old.store)) }
    ensures count { result ≡ counts (length (boot (durable_of lines.old.store))) }
{
    issue_formatting(lines);
    let table = vehicle_table();
    let rules = vehicle_rules();
    for step in 0..4usize {
        issue_conversion(lines, &table, &rules, step);
    }
    lines.pending() as u64
}

/// A node that has heard and sent nothing, with the lines of boot pending.
pub(crate) fn booted(budget: u32, mut lines: DirtyLines) -> Node
    requires nothing { lines.pending ≡ [] }
    ensures { IsBooted budget lines result }
{
    let issued = issue_boot(&mut lines);
    let mut core = Core::new();
    core.refresh(lines.current());
    Node {
        budget,
        lines,
        core,
        cutters: [
            Cutter::new(),
            Cutter::new(),
            Cutter::new(),
            Cutter::new(),
            Cutter::new(),
            Cutter::new(),
            Cutter::new(),
            Cutter::new(),
        ],
        sequences: [0; 8],
        frames: 0,
        issued,
    }
}
