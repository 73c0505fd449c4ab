//! Formatting: the magic, and MIS_TOTAL's record with the value 0, by two lines of which the second
//! counts.
ghost use Rattle.std.specs.Prelude.{◌≡◌, ◌≢◌, ◌≤◌, ◌+◌, ◌++◌, ◌↔◌, [], length, take, drop, IsTrue, if◌then◌else◌};
ghost use Rattle.arrayvec.specs.ArrayVec.{array_vec_len};
ghost use Rattle.storage_lines.specs.declared.areas.Area.TheVariants.{Param};
ghost use Rattle.storage_lines.specs.Areas.{logical_of};
ghost use Rattle.storage_lines.specs.Bytes.{HaveBytes, AreInside};
ghost use Rattle.storage_lines.specs.Lines.{after};
ghost use Rattle.storage_lines.specs.Pieces.{writes_of};
ghost use Rattle.param_records.specs.Records.{magic};
ghost use Rattle.param_records.specs.Changes.{formatting};
ghost use Rattle.param_records.specs.Steps.{Formats};

use crate::appending::put;
use crate::records::has_magic;
use storage_lines::{BATCH_LINES, Batch, STORAGE_BYTES};

/// The line writes of formatting.
pub const FORMAT_LINES: usize = 2;

/// Line 0: the magic, and the header of MIS_TOTAL.
const FIRST_LINE: [u8; 8] = [0x50, 0x41, 6, 0, 0x14, 0x42, 0, 0];

/// Line 1: the value 0, and the sentinel.
const SECOND_LINE: [u8; 8] = [0, 0, 0xFF, 0xFF, 0x3F, 0, 0, 0];

/// Appends the formatting lines where the storage doesn't begin with the magic, and says whether
/// that is so.
pub fn format_batch(current: &[u8], batch: &mut Batch) -> bool
    requires size { length current.now ≡ STORAGE_BYTES }
    requires room { array_vec_len batch.old + FORMAT_LINES ≤ BATCH_LINES }
    ensures due { IsTrue result ↔ (take 4 (logical_of Param current.now) ≢ magic) }
    ensures writes { batch.new.items ≡ batch.old.items
        ++ (if result then writes_of (after current.now batch.old.items) formatting else []) }
    ensures formatted { IsTrue result → Formats (after current.now batch.old.items)
        (drop (array_vec_len batch.old) batch.new.items) }
    ensures few { array_vec_len batch.new ≤ array_vec_len batch.old + FORMAT_LINES }
    ensures inside { AreInside batch.old.items → AreInside batch.new.items }
    ensures bytes { HaveBytes batch.old.items → HaveBytes batch.new.items }
{
    if has_magic(current) {
        return false;
    }
    put(8, &SECOND_LINE, current, batch);
    put(0, &FIRST_LINE, current, batch);
    true
}
