//! What no clause says: worked values, and the kept places beside those that a walk finds.
ghost use Rattle.std.specs.Prelude.{◌≡◌, ◌<◌, length};
ghost use Rattle.storage_lines.specs.Bytes.{AreInside};
ghost use Rattle.storage_lines.specs.Lines.{after};
ghost use Rattle.param_index.specs.Places.{IsIndexOf};

use crate::*;
use param_records::{MAGIC, SetError, append, end_place, format_batch, place};
use param_tree::{Kind, PARAMETERS, vehicle_table};
use storage_lines::{Batch, LineWrite, apply, split};

fn apply_all(writes: &[LineWrite], bytes: &mut [u8])
    requires inside { AreInside writes.now }
    requires size { length bytes.old ≡ STORAGE_BYTES }
    ensures { bytes.new ≡ after bytes.old writes.now }
{
    for write in writes {
        apply(write, bytes);
    }
}

/// A storage and its index.
#[derive(Drop)]
struct Storage {
    bytes: [u8; STORAGE_BYTES],
    table: Table<PARAMETERS>,
    index: Index<PARAMETERS>,
    ghost indexed: { IsIndexOf table bytes index },
}

impl Storage {
    fn new(bytes: [u8; STORAGE_BYTES]) -> Storage {
        let table = vehicle_table();
        let index = Index::build(&bytes, &table);
        Storage {
            bytes,
            table,
            index,
        }
    }

    fn formatted() -> Storage {
        let mut bytes = [0; STORAGE_BYTES];
        let mut batch = Batch::new();
        format_batch(&bytes, &mut batch);
        apply_all(batch.as_slice(), &mut bytes);
        Storage::new(bytes)
    }

    /// Sets a row, and applies the lines.
    fn set(&mut self, var: u16, bits: u32) -> Result<(), SetError>
        requires { var < 240 }
    {
        let mut batch = Batch::new();
        let answer = self
            .index
            .set(&self.bytes, &self.table, var, bits, &mut batch);
        apply_all(batch.as_slice(), &mut self.bytes);
        answer
    }

    fn value(&self, var: u16) -> Value
        requires { var < 240 }
    {
        self.index.value(&self.bytes, &self.table, var)
    }

    /// Whether the index keeps the places that a walk finds now.
    fn is_right(&self) -> bool {
        for var in 0..240u16 {
            let row = self.table.row(var);
            if self.index.place(var) != place(&self.bytes, row.key, row.element, row.kind) {
                return false;
            }
        }
        self.index.end() == end_place(&self.bytes)
    }
}

#[test]
fn keeps_the_places_of_appended_records(rt: HostRuntime) {
    let mut storage = Storage::formatted();
    // MIS_TOTAL, which formatting wrote.
    assert_eq!(rt; storage.index.place(5), Some(8));
    assert_eq!(rt; storage.index.end(), 10);
    for (var, bits, place, end) in [
        // INS_GYRO_FILTER and INS_ACCEL_FILTER become 30, MIS_OPTIONS 5.
        (42u16, 0x41F0_0000, 14, 16),
        (43, 0x41F0_0000, 20, 22),
        (7, 0x40A0_0000, 26, 28),
        // LOG_BITMASK and RC1_MIN become 5.
        (2, 0x40A0_0000, 32, 36),
        (144, 0x40A0_0000, 40, 42),
        // INS_GYRO_FILTER becomes 5, where it stands.
        (42, 0x40A0_0000, 14, 42),
        // FS_THR_ENABLE is 1 by default, and so is written nowhere; then it becomes -128.
        (3, 0xC300_0000, 46, 47),
        // COMPASS_OFS_Y becomes 1, then COMPASS_OFS_Z 2.
        (22, 0x3F80_0000, 51, 63),
        (23, 0x4000_0000, 51, 63),
        // FENCE_RADIUS becomes 100, SERVO1_TRIM 30 and DISARM_DELAY 5.
        (12, 0x42C8_0000, 67, 71),
        (66, 0x41F0_0000, 75, 77),
        (4, 0x40A0_0000, 81, 82),
    ] {
        assert!(rt; var < 240);
        // The end moves where the row has no record yet.
        assert_eq!(rt;
            storage.index.place(var).is_some(),
            storage.index.end() == end
        );
        assert_eq!(rt; storage.set(var, bits), Ok(()));
        assert_eq!(rt; storage.index.place(var), Some(place));
        assert_eq!(rt; storage.index.end(), end);
        assert!(rt; storage.is_right());
    }
    assert_eq!(rt; storage.value(42), Value::Whole(5));
    assert_eq!(rt; storage.value(3), Value::Whole(-128));
    let stored = storage.bytes[46];
    assert_eq!(rt; stored, 0x80);
}

#[test]
fn a_default_or_a_refusal_leaves_the_index(rt: HostRuntime) {
    let mut storage = Storage::formatted();
    // FS_THR_ENABLE is an i8, 1 by default: 128 is no value of it.
    assert_eq!(rt; storage.set(3, 0x3F80_0000), Ok(()));
    assert_eq!(rt;
        storage.set(3, 0x4300_0000),
        Err(SetError::Range { bits: 0x4300_0000 })
    );
    assert_eq!(rt; (storage.index.place(3), storage.index.end()), (None, 10));
    assert_eq!(rt; storage.value(3), Value::Whole(1));
}

#[test]
fn three_floats_have_one_place(rt: HostRuntime) {
    let mut storage = Storage::formatted();
    // COMPASS_OFS_Y becomes 1.
    assert_eq!(rt; storage.set(22, 0x3F80_0000), Ok(()));
    for var in 21..24u16 {
        assert_eq!(rt; storage.index.place(var), Some(14));
    }
    assert_eq!(rt; (storage.index.place(24), storage.index.end()), (None, 26));
    // COMPASS_OFS_Z becomes 2, and X stays 0.
    assert_eq!(rt; storage.set(23, 0x4000_0000), Ok(()));
    assert_eq!(rt; storage.index.end(), 26);
    assert_eq!(rt; storage.value(21), Value::Bits(0));
    assert_eq!(rt; storage.value(22), Value::Bits(0x3F80_0000));
    assert_eq!(rt; storage.value(23), Value::Bits(0x4000_0000));
}

#[test]
fn a_storage_without_the_magic_has_no_places(rt: HostRuntime) {
    let mut storage = Storage::new([0; STORAGE_BYTES]);
    assert_eq!(rt; storage.set(42, 0x41F0_0000), Ok(()));
    assert_eq!(rt; (storage.index.place(42), storage.index.end()), (None, 4));
    assert!(rt; storage.is_right());
}

#[test]
fn a_full_storage_keeps_its_end(rt: HostRuntime) {
    let mut bytes = [0; STORAGE_BYTES];
    let mut batch = Batch::new();
    let _ = split(Area::Param, 0, &MAGIC, &bytes, &mut batch);
    apply_all(batch.as_slice(), &mut bytes);
    for i in 0..607usize {
        let mut record = Batch::new();
        append(
            &bytes,
            4 + 16 * i,
            100,
            0,
            Kind::Vec3,
            &[0; 12],
            &mut record,
        );
        apply_all(record.as_slice(), &mut bytes);
    }
    let mut storage = Storage::new(bytes);
    assert_eq!(rt; storage.index.end(), 9716);
    // A new i8 takes five bytes, and the sentinel four; then there is no room for a next one.
    assert_eq!(rt; storage.set(3, 0), Ok(()));
    assert_eq!(rt;
        (storage.index.place(3), storage.index.end()),
        (Some(9720), 9721)
    );
    assert_eq!(rt; storage.set(4, 0), Err(SetError::Full { end: 9721 }));
    assert_eq!(rt; (storage.index.place(4), storage.index.end()), (None, 9721));
    assert!(rt; storage.is_right());
}
