//! Bytes at a logical place of an area: read, or split into the line writes that put them there.
ghost use Rattle.std.specs.Prelude.{◌≡◌, ◌<◌, ◌≤◌, ◌+◌, ◌*◌, ◌↔◌, ◌++◌, ℕ, List, length, take, drop, slice_index, MatchOption, OnOk, OnErr, IsErrOf};
ghost use Rattle.arrayvec.specs.ArrayVec.{array_vec_len};
ghost use Rattle.storage_lines.specs.Areas.{IsAscending, put_in, total_size, size_of_area, logical_of};
ghost use Rattle.storage_lines.specs.Bytes.{HaveBytes, AreInside};
ghost use Rattle.storage_lines.specs.Lines.{after, line_of, changes};
ghost use Rattle.storage_lines.specs.Pieces.{writes_of_piece};

use crate::areas::{Area, Spans, logical_at, place_in, spans_of, total_size};
use crate::lines::{BATCH_LINES, Batch, LINES, LineWrite, STORAGE_BYTES};
use thiserror::Error;

/// Why bytes are not split into lines; the batch is as before.
#[derive(Clone, Copy, Debug, PartialEq, Eq, Drop, Error)]
pub enum SplitError {
    /// Place and length exceed the area.
    #[error("the bytes do not lie in the area")]
    OutOfArea,
    /// The lines that change exceed the batch.
    #[error("the batch has no place for the lines")]
    NoPlace,
}

/// The eight bytes of a line, after the writes.
fn line_now(current: &[u8], writes: &[LineWrite], line: usize) -> [u8; 8]
    requires line { line < LINES }
    requires size { length current.now ≡ STORAGE_BYTES }
    ensures { result ≡ line_of (after current.now writes.now) line }
{
    let at = 8 * line;
    let mut bytes = [0; 8];
    bytes.copy_from_slice(&current[at..at + 8]);
    for write in writes {
        if write.line as usize == line {
            bytes.copy_from_slice(&write.bytes);
        }
    }
    bytes
}

/// The byte at a place of the storage, once the new bytes stand at their logical place.
fn byte_with(spans: &Spans, at: usize, new: &[u8], place: usize, before: u8) -> u8
    requires ascending { IsAscending spans.now }
    requires inside { at + length new.now ≤ total_size spans.now }
    ensures { (b : List ℕ) → length b ≡ STORAGE_BYTES → slice_index b place ≡ before
        → slice_index (put_in spans.now at new.now b) place ≡ result }
{
    match logical_at(spans, place) {
        Some(i) => {
            if i >= at && i - at < new.len() {
                new[i - at]
            } else {
                before
            }
        }
        None => before,
    }
}

/// The eight bytes of a line, once the new bytes stand at their logical place.
fn line_with(spans: &Spans, at: usize, new: &[u8], line: usize, before: [u8; 8]) -> [u8; 8]
    requires ascending { IsAscending spans.now }
    requires inside { at + length new.now ≤ total_size spans.now }
    requires line { line < LINES }
    ensures { (b : List ℕ) → length b ≡ STORAGE_BYTES → line_of b line ≡ before
        → line_of (put_in spans.now at new.now b) line ≡ result }
{
    let mut bytes = before;
    for j in 0..8usize {
        bytes[j] = byte_with(spans, at, new, 8 * line + j, bytes[j]);
    }
    bytes
}

/// The writes of the lines that change, or None where they are more than a batch holds.
fn changed_lines(
    spans: &Spans,
    at: usize,
    new: &[u8],
    current: &[u8],
    writes: &[LineWrite],
) -> Option<Batch>
    requires ascending { IsAscending spans.now }
    requires inside { at + length new.now ≤ total_size spans.now }
    requires size { length current.now ≡ STORAGE_BYTES }
    ensures { let before = after current.now writes.now in
        let all = changes before (put_in spans.now at new.now before) in
        MatchOption result (BATCH_LINES < length all) (λ batch. batch.items ≡ all) }
{
    if new.is_empty() {
        return Some(Batch::new());
    }
    let first = place_in(spans, at) / 8;
    let last = place_in(spans, at + new.len() - 1) / 8;
    let mut batch = Batch::new();
    for line in first..last + 1 {
        let before = line_now(current, writes, line);
        let bytes = line_with(spans, at, new, line, before);
        if bytes != before {
            if batch.is_full() {
                return None;
            }
            batch.push(LineWrite {
                line: line as u16,
                bytes,
            });
        }
    }
    Some(batch)
}

/// Appends the writes that put bytes at a logical place of an area, over `current` with the batch's
/// own writes applied: the lines that change, ascending.
pub fn split(
    area: Area,
    at: u16,
    bytes: &[u8],
    current: &[u8],
    out: &mut Batch,
) -> Result<(), SplitError>
    requires { length current.now ≡ STORAGE_BYTES }
    ensures ok { OnOk result (out.new.items ≡
        out.old.items ++ writes_of_piece area at bytes.now (after current.now out.old.items)) }
    ensures err { OnErr result (out.new.items ≡ out.old.items) }
    ensures out_of_area { IsErrOf result SplitError.OutOfArea
        ↔ (size_of_area area < at + length bytes.now) }
    ensures no_place { IsErrOf result SplitError.NoPlace
        ↔ ((at + length bytes.now ≤ size_of_area area)
        × (BATCH_LINES < array_vec_len out.old
        + length (writes_of_piece area at bytes.now (after current.now out.old.items)))) }

    // What a batch keeps from push to push, whatever is answered.
    ensures few { array_vec_len out.new ≤ array_vec_len out.old + length bytes.now }
    ensures inside { AreInside out.old.items → AreInside out.new.items }
    ensures bytes { HaveBytes out.old.items → HaveBytes out.new.items }
{
    let spans = spans_of(area);
    let start = at as usize;
    let size = total_size(&spans);
    if start > size || bytes.len() > size - start {
        return Err(SplitError::OutOfArea);
    }
    match changed_lines(&spans, start, bytes, current, out.as_slice()) {
        Some(batch) => match out.try_extend_from_slice(batch.as_slice()) {
            Ok(()) => Ok(()),
            Err(_) => Err(SplitError::NoPlace),
        },
        None => Err(SplitError::NoPlace),
    }
}

/// Copies the bytes at a logical place of an area.
pub fn read(area: Area, at: u16, current: &[u8], into: &mut [u8])
    requires size { length current.now ≡ STORAGE_BYTES }
    requires inside { at + length into.old ≤ size_of_area area }
    ensures { into.new ≡ take (length into.old) (drop at (logical_of area current.now)) }
{
    let spans = spans_of(area);
    for (i, byte) in into.iter_mut().enumerate() {
        *byte = current[place_in(&spans, at as usize + i)];
    }
}
