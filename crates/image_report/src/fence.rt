//! The fence of an image: how many items it has, and a line for each.
ghost use Rattle.std.specs.Prelude.{◌≡◌, ◌≤◌, length};
ghost use Rattle.sector_log.specs.Storage.{storage_bytes};
ghost use Rattle.image_report.specs.Dumps as dumps;
ghost use Rattle.image_report.specs.Steps.Writes.{Writes};

use crate::output::write;
use fence_records::{FenceItem, parse};
use flash_traits::{Failed, Sink};
use printed_text::{Line, push, push_hex, push_number};

/// The number of items.
fn fence_line(count: u16) -> Line
    ensures { result.items ≡ dumps.fence_line count }
{
    let mut line = Line::new();
    push(&mut line, b"fence ");
    push_number(&mut line, count);
    push(&mut line, b"\n");
    line
}

/// An item with its index.
fn fence_item_line(index: u16, item: &FenceItem) -> Line
    ensures { result.items ≡ dumps.fence_item_line index item.now }
{
    let mut line = Line::new();
    push(&mut line, b"fence ");
    push_number(&mut line, index);
    push(&mut line, b" ");
    push_number(&mut line, item.command);
    push(&mut line, b" ");
    push_number(&mut line, item.x);
    push(&mut line, b" ");
    push_number(&mut line, item.y);
    push(&mut line, b" ");
    push_hex(&mut line, &item.param1.to_be_bytes());
    push(&mut line, b"\n");
    line
}

/// Writes a line for each item, in their order.
fn write_items<K: Sink>(out: &mut K, items: &[FenceItem]) -> Result<(), Failed>
    requires few { length items.now ≤ 52 }
    ensures { Writes K.Sink out.old out.new result
        (dumps.numbered_lines dumps.fence_item_line items.now) }
{
    for index in 0..items.len() {
        write(out, fence_item_line(index as u16, &items[index]).as_slice())?;
    }
    Ok(())
}

/// Writes the number of items, and a line for each.
pub(crate) fn write_fence<K: Sink>(out: &mut K, bytes: &[u8]) -> Result<(), Failed>
    requires { length bytes.now ≡ storage_bytes }
    ensures { Writes K.Sink out.old out.new result (dumps.fence_lines bytes.now) }
{
    let items = parse(bytes);
    write(out, fence_line(items.len() as u16).as_slice())?;
    write_items(out, items.as_slice())
}
