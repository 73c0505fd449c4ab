//! The pieces of an appended record, as line writes: whatever of them a loss leaves, the record is
//! absent or whole.
ghost use Rattle.std.specs.Prelude.{◌≡◌, ◌<◌, ◌≤◌, ◌+◌, ◌*◌, ◌%◌, ◌++◌, length};
ghost use Rattle.arrayvec.specs.ArrayVec.{array_vec_len};
ghost use Rattle.storage_lines.specs.declared.areas.Area.TheVariants.{Param};
ghost use Rattle.storage_lines.specs.Bytes.{HaveBytes, AreInside};
ghost use Rattle.storage_lines.specs.Lines.{after};
ghost use Rattle.storage_lines.specs.Pieces.{writes_of, writes_of_piece};
ghost use Rattle.param_records.specs.Records.{size_of, four_bytes, header_of};
ghost use Rattle.param_records.specs.Changes.{header_pieces, appending};

use crate::records::{PARAM_BYTES, type_of};
use byteorder::{ByteOrder, LittleEndian};
use param_tree::Kind;
use storage_lines::{Area, BATCH_LINES, Batch, STORAGE_BYTES, split};

/// The sentinel, whose type is none: it ends the records.
const SENTINEL: [u8; 4] = [0xFF, 0xFF, 0x3F, 0];

/// The most line writes of an appended record.
pub const APPEND_LINES: usize = 7;

/// The four bytes of a number, little endian.
pub fn four_bytes(number: u32) -> [u8; 4]
    ensures { result ≡ four_bytes number }
{
    let mut bytes = [0; 4];
    LittleEndian::write_u32(&mut bytes, number);
    bytes
}

/// Splits a piece for which the batch has room.
pub fn put(at: usize, bytes: &[u8], current: &[u8], batch: &mut Batch)
    requires size { length current.now ≡ STORAGE_BYTES }
    requires inside { at + length bytes.now ≤ PARAM_BYTES }
    requires room { 8 * array_vec_len batch.old + at % 8 + length bytes.now + 7
        < 8 * BATCH_LINES + 8 }
    ensures items { batch.new.items ≡ batch.old.items
        ++ writes_of_piece Param at bytes.now (after current.now batch.old.items) }
    ensures few { 8 * array_vec_len batch.new
        ≤ 8 * array_vec_len batch.old + at % 8 + length bytes.now + 7 }
    ensures inside { AreInside batch.old.items → AreInside batch.new.items }
    ensures bytes { HaveBytes batch.old.items → HaveBytes batch.new.items }
{
    match split(Area::Param, at as u16, bytes, current, batch) {
        Ok(()) => {}
        Err(_) => unreachable!(),
    }
}

/// The bytes of a header: in bits 0 to 7 the key's low byte, 8 to 12 the type, 13 the key's bit 8,
/// 14 to 31 the element.
fn header_bytes(key: u16, element: u32, kind: Kind) -> [u8; 4]
    requires key { key < 0x200 }
    requires element { element < 0x4_0000 }
    ensures { result ≡ four_bytes (header_of key element kind) }
{
    four_bytes(
        (key % 0x100) as u32
            + 0x100 * type_of(kind) as u32
            + 0x2000 * (key / 0x100) as u32
            + 0x4000 * element,
    )
}

/// Puts a header. Where it stands in two lines the one with the type comes last, since only the
/// type makes the four bytes a header.
fn put_header(at: usize, header: &[u8; 4], current: &[u8], batch: &mut Batch)
    requires size { length current.now ≡ STORAGE_BYTES }
    requires inside { at + 4 ≤ PARAM_BYTES }
    requires room { array_vec_len batch.old + 2 ≤ BATCH_LINES }
    ensures items { batch.new.items ≡ batch.old.items
        ++ writes_of (after current.now batch.old.items) (header_pieces at header.now) }
    ensures few { array_vec_len batch.new ≤ array_vec_len batch.old + 2 }
    ensures inside { AreInside batch.old.items → AreInside batch.new.items }
    ensures bytes { HaveBytes batch.old.items → HaveBytes batch.new.items }
{
    let column = at % 8;
    if column < 5 {
        put(at, header, current, batch);
    } else if column == 7 {
        put(at, &header[..1], current, batch);
        put(at + 1, &header[1..], current, batch);
    } else {
        put(at + (8 - column), &header[8 - column..], current, batch);
        put(at, &header[..8 - column], current, batch);
    }
}

/// Appends the writes of a record at the end of the records, for which there is room: the sentinel
/// after it, its value, its header.
pub fn append(
    current: &[u8],
    end: usize,
    key: u16,
    element: u32,
    kind: Kind,
    value: &[u8],
    batch: &mut Batch,
)
    requires size { length current.now ≡ STORAGE_BYTES }
    requires key { key < 0x200 }
    requires element { element < 0x4_0000 }
    requires value { length value.now ≡ size_of kind }
    requires inside { end + 8 + length value.now ≤ PARAM_BYTES }
    requires room { array_vec_len batch.old + APPEND_LINES ≤ BATCH_LINES }
    ensures items { batch.new.items ≡ batch.old.items
        ++ writes_of (after current.now batch.old.items)
        (appending end (record { key = key; element = element; kind = kind; value = value.now })) }
    ensures few { array_vec_len batch.new ≤ array_vec_len batch.old + APPEND_LINES }
    ensures inside { AreInside batch.old.items → AreInside batch.new.items }
    ensures bytes { HaveBytes batch.old.items → HaveBytes batch.new.items }
{
    let header = header_bytes(key, element, kind);
    put(end + 4 + value.len(), &SENTINEL, current, batch);
    put(end + 4, value, current, batch);
    put_header(end, &header, current, batch);
}
