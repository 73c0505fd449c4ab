//! The writes that replace the stored fence, or clear it: the first line goes last.

ghost use Rattle.std.specs.Prelude.{◌≡◌, ◌==◌, ◌+◌, ◌*◌, ◌<◌, ◌≤◌, ◌++◌, [], ◌∷◌, ℕ, List, length};
ghost use Rattle.std.specs.Prelude.{map, drop, flat_map, MatchBool, MatchOption, MatchResult};
ghost use Rattle.std.specs.Prelude.{OnOk, OnErr};
ghost use Rattle.std.specs.Prelude.{Some, Ok, Err};
ghost use Rattle.arrayvec.specs.ArrayVec.{array_vec_len};
ghost use Rattle.storage_lines.specs.declared.areas.Area.TheVariants.{Fence};
ghost use Rattle.storage_lines.specs.declared.lines.TheConstants.{STORAGE_BYTES, BATCH_LINES};
ghost use Rattle.storage_lines.specs.Lines.{after};
ghost use Rattle.storage_lines.specs.Pieces.{writes_of_piece};
ghost use Rattle.fence_records.specs.declared.TheConstants.{FENCE_BYTES};
ghost use Rattle.fence_records.specs.declared.items.FenceItem.{FenceItem};
ghost use Rattle.fence_records.specs.Items.{kind_of};
ghost use Rattle.fence_records.specs.Cut.{AreOneFigure, IsCut, IsAllowedFence};
ghost use Rattle.fence_records.specs.Fence.{Figure, ReturnPoint, Round, Polygon, record_of};
ghost use Rattle.fence_records.specs.Fence.{point_bytes};
ghost use Rattle.fence_records.specs.Write.{encoded, fence_writes};
ghost use Rattle.fence_records.specs.Lists.{point, figure_at, figures_of, replace_writes};
ghost use Rattle.fence_records.specs.Lists.{clear_fence_writes, fence_of, AreFenceItems, IsReplacedInSteps};
ghost use Rattle.storage_lines.specs.Bytes.{HaveBytes, AreInside};

use crate::FENCE_BYTES;
use crate::cut::run_length;
use crate::items::{FenceItem, Kind, kind_of};
use crate::laws::{fences_are_replaced, fences_in_steps};
use arrayvec::ArrayVec;
use storage_lines::numbers::{push_number, unsigned};
use storage_lines::{Area, Batch, SplitError, split};

/// Appends where the item is.
fn push_point(item: &FenceItem, bytes: &mut ArrayVec<u8, FENCE_BYTES>)
    requires { array_vec_len bytes.old + 8 ≤ FENCE_BYTES }
    ensures items { bytes.new.items ≡ bytes.old.items ++ point_bytes (point item.now) }
    ensures len { array_vec_len bytes.new ≡ array_vec_len bytes.old + 8 }
{
    push_number(bytes, 4, unsigned(4, item.x));
    push_number(bytes, 4, unsigned(4, item.y));
}

/// Appends where the items are.
fn push_points(items: &[FenceItem], bytes: &mut ArrayVec<u8, FENCE_BYTES>)
    requires { array_vec_len bytes.old + 8 * length items.now ≤ FENCE_BYTES }
    ensures items { bytes.new.items ≡
        bytes.old.items ++ flat_map point_bytes (map point items.now) }
    ensures len { array_vec_len bytes.new ≡ array_vec_len bytes.old + 8 * length items.now }
{
    for index in 0..items.len() {
        push_point(&items[index], bytes);
    }
}

/// Appends the record of a return point, where it leaves room for the end mark.
fn push_return_point(item: &FenceItem, bytes: &mut ArrayVec<u8, FENCE_BYTES>) -> bool
    requires { array_vec_len bytes.old ≤ 415 }
    ensures record { MatchBool result
        (bytes.new.items ≡ bytes.old.items ++ record_of (ReturnPoint (point item.now)))
        (415 < array_vec_len bytes.old + 9) }
    ensures room { array_vec_len bytes.new ≤ 415 }
{
    if bytes.len() + 9 > 415 {
        return false;
    }
    bytes.push(95);
    push_point(item, bytes);
    true
}

/// Appends the record of a circle, where it leaves room for the end mark.
fn push_circle(item: &FenceItem, bytes: &mut ArrayVec<u8, FENCE_BYTES>) -> bool
    requires { array_vec_len bytes.old ≤ 415 }
    ensures record { MatchBool result
        (bytes.new.items ≡ bytes.old.items
        ++ record_of (Round (item.now.command == 5003) item.now.param1 (point item.now)))
        (415 < array_vec_len bytes.old + 13) }
    ensures room { array_vec_len bytes.new ≤ 415 }
{
    if bytes.len() + 13 > 415 {
        return false;
    }
    bytes.push(if item.command == 5003 { 92 } else { 93 });
    push_point(item, bytes);
    push_number(bytes, 4, item.param1);
    true
}

/// Appends the record of a polygon with these vertices, where it leaves room for the end mark.
fn push_polygon(inside: bool, items: &[FenceItem], bytes: &mut ArrayVec<u8, FENCE_BYTES>) -> bool
    requires room { array_vec_len bytes.old ≤ 415 }
    requires few { length items.now ≤ 51 }
    ensures record { (pattern : ℕ) → MatchBool result
        (bytes.new.items ≡ bytes.old.items
        ++ record_of (Polygon inside pattern (map point items.now)))
        (415 < array_vec_len bytes.old + (2 + 8 * length items.now)) }
    ensures room { array_vec_len bytes.new ≤ 415 }
{
    if bytes.len() + 2 + 8 * items.len() > 415 {
        return false;
    }
    bytes.push(if inside { 98 } else { 97 });
    bytes.push(items.len() as u8);
    push_points(items, bytes);
    true
}

/// Appends the record of a circle, a return point or a polygon, where it leaves room for the end
/// mark.
fn push_record(run: &[FenceItem], bytes: &mut ArrayVec<u8, FENCE_BYTES>) -> bool
    requires run { AreOneFigure run.now }
    requires room { array_vec_len bytes.old ≤ 415 }
    ensures record { (i : FenceItem) (others : List FenceItem) → run.now ≡ i ∷ others →
        MatchBool result
        (bytes.new.items ≡ bytes.old.items ++ record_of (figure_at (kind_of i.command) i run.now))
        (415 < array_vec_len bytes.old
        + length (record_of (figure_at (kind_of i.command) i run.now))) }
    ensures room { array_vec_len bytes.new ≤ 415 }
{
    let first = run[0];
    match kind_of(first.command) {
        Kind::Return => push_return_point(&first, bytes),
        Kind::Circle => push_circle(&first, bytes),
        Kind::Vertex => push_polygon(first.command == 5001, run, bytes),
        Kind::Unknown => false,
    }
}

/// Appends the records of the items, where they leave room for the end mark.
fn push_figures(items: &[FenceItem], bytes: &mut ArrayVec<u8, FENCE_BYTES>) -> bool
    requires cut { IsCut items.now }
    requires room { array_vec_len bytes.old ≤ 415 }
    ensures records { (fs : List Figure) → figures_of (length items.now) items.now ≡ Some fs →
        MatchBool result
        (bytes.new.items ≡ bytes.old.items ++ flat_map record_of fs)
        (415 < array_vec_len bytes.old + length (flat_map record_of fs)) }
    ensures room { array_vec_len bytes.new ≤ 415 }
{
    if items.is_empty() {
        return true;
    }
    match run_length(items) {
        Some(size) => {
            if push_record(&items[..size], bytes) {
                push_figures(&items[size..], bytes)
            } else {
                false
            }
        }
        None => false,
    }
}

/// The version, the records of the items and the end mark, or None where the area has no room for
/// them.
fn encode(items: &[FenceItem]) -> Option<ArrayVec<u8, FENCE_BYTES>>
    requires { IsCut items.now }
    ensures { (fs : List Figure) → figures_of (length items.now) items.now ≡ Some fs →
        MatchOption result
        (FENCE_BYTES < length (encoded fs))
        (λ bytes. bytes.items ≡ encoded fs) }
{
    let mut bytes = ArrayVec::<u8, FENCE_BYTES>::new();
    bytes.push(0xEB);
    bytes.push(0);
    bytes.push(0);
    bytes.push(0);
    if !push_figures(items, &mut bytes) {
        return None;
    }
    bytes.push(99);
    Some(bytes)
}

/// Appends the writes that put the bytes in the area.
fn put(at: u16, bytes: &[u8], current: &[u8], batch: &mut Batch)
    requires size { length current.now ≡ STORAGE_BYTES }
    requires inside { at + length bytes.now ≤ FENCE_BYTES }
    requires room { array_vec_len batch.old
        + length (writes_of_piece Fence at bytes.now (after current.now batch.old.items))
        ≤ BATCH_LINES }
    ensures writes { batch.new.items ≡ batch.old.items
        ++ writes_of_piece Fence at bytes.now (after current.now batch.old.items) }
    ensures few { array_vec_len batch.new ≤ array_vec_len batch.old + length bytes.now }
    ensures inside { AreInside batch.old.items → AreInside batch.new.items }
    ensures bytes { HaveBytes batch.old.items → HaveBytes batch.new.items }
{
    match split(Area::Fence, at, bytes, current, batch) {
        Ok(()) => {}
        Err(SplitError::OutOfArea) => unreachable!(),
        Err(SplitError::NoPlace) => unreachable!(),
    }
}

/// Gives the writes that replace the stored fence by these items; 4 (MAV_MISSION_NO_SPACE) exactly
/// where the version, the records and the end mark exceed the 416 bytes of the area.
pub fn write(current: &[u8], items: &[FenceItem], batch: &mut Batch) -> Result<(), u8>
    requires size { length current.now ≡ STORAGE_BYTES }
    requires allowed { IsAllowedFence items.now }
    requires empty { batch.old.items ≡ [] }
    ensures writes { MatchResult result
        (λ _. replace_writes current.now items.now ≡ Ok batch.new.items)
        (λ e. (e ≡ 4) × (replace_writes current.now items.now ≡ Err 4)) }
    ensures unchanged { OnErr result (batch.new.items ≡ batch.old.items) }
    ensures steps { OnOk result ((j : ℕ) → IsReplacedInSteps current.now batch.new.items j) }
    ensures replaced { AreFenceItems items.now
        → OnOk result (fence_of (after current.now batch.new.items) ≡ items.now) }
    ensures inside { AreInside batch.new.items }
    ensures bytes { HaveBytes batch.new.items }
{
    fences_in_steps();
    fences_are_replaced();
    match encode(items) {
        Some(bytes) => {
            put_encoded(&bytes, current, batch);
            Ok(())
        }
        None => Err(4),
    }
}

/// Gives the writes of the encoded fence: the first line with an end behind the version, the other
/// lines, and the first line whole. A loss between them leaves the old fence, none, or the new one.
fn put_encoded(bytes: &[u8], current: &[u8], batch: &mut Batch)
    requires size { length current.now ≡ STORAGE_BYTES }
    requires fits { length bytes.now ≤ FENCE_BYTES }
    requires empty { batch.old.items ≡ [] }
    ensures writes { batch.new.items ≡ fence_writes bytes.now current.now }
    ensures inside { AreInside batch.new.items }
    ensures bytes { HaveBytes batch.new.items }
{
    let head = bytes.len().min(8);
    put(0, &[0xEB, 0, 0, 0, 99], current, batch);
    put(8, &bytes[head..], current, batch);
    put(0, &bytes[..head], current, batch);
}

/// Appends the write that clears the fence, where it changes a line: an end behind the version.
pub fn clear(current: &[u8], batch: &mut Batch)
    requires size { length current.now ≡ STORAGE_BYTES }
    requires room { array_vec_len batch.old + 1 ≤ BATCH_LINES }
    ensures writes { batch.new.items ≡
        batch.old.items ++ clear_fence_writes (after current.now batch.old.items) }
    ensures cleared { length (after current.now batch.old.items) ≡ STORAGE_BYTES
        → fence_of (after (after current.now batch.old.items)
        (drop (array_vec_len batch.old) batch.new.items)) ≡ [] }
    ensures inside { AreInside batch.old.items → AreInside batch.new.items }
    ensures bytes { HaveBytes batch.old.items → HaveBytes batch.new.items }
{
    fences_in_steps();
    put(0, &[0xEB, 0, 0, 0, 99], current, batch);
}
