//! What no clause says: the lines of a worked storage, and what its parameters then are.
ghost use Rattle.std.specs.Prelude.{◌≡◌, ◌+◌, ◌≤◌, length};

use crate::*;
use param_records::{Value, end_place, value};
use param_tree::vehicle_table;
use storage_lines::{Area, Batch, LINES, LineWrite, STORAGE_BYTES, apply, split};

fn apply_all(writes: &[LineWrite], bytes: &mut [u8])
    requires { length bytes.old ≡ STORAGE_BYTES }
{
    for write in writes {
        if (write.line as usize) < LINES {
            apply(write, bytes);
        }
    }
}

/// Storage that is formatted, and then has these records and zeros.
fn stored(records: &[u8]) -> [u8; STORAGE_BYTES]
    requires { 10 + length records.now ≤ 1280 }
{
    let mut bytes = [0; STORAGE_BYTES];
    bytes[..10].copy_from_slice(&[0x50, 0x41, 6, 0, 0x14, 0x42, 0, 0, 0, 0]);
    bytes[10..10 + records.len()].copy_from_slice(records);
    bytes
}

/// Tries the vehicle's rule of a step, and makes its writes.
fn convert_step(bytes: &mut [u8; STORAGE_BYTES], step: usize) -> Batch {
    let mut batch = Batch::new();
    if step < 4 {
        convert(bytes, &vehicle_table(), &vehicle_rules(), step, &mut batch);
    }
    apply_all(batch.as_slice(), bytes);
    batch
}

#[test]
fn carries_a_servo_trim_over_once(rt: HostRuntime) {
    // The key 100 has 1520, and the sentinel follows.
    let mut bytes = stored(&[0x64, 2, 0, 0, 0xF0, 5, 0xFF, 0xFF, 0x3F, 0]);
    let batch = convert_step(&mut bytes, 0);
    assert_eq!(rt;
        batch.as_slice(),
        [
            LineWrite {
                line: 2,
                bytes: [0xFF, 0xFF, 0x3F, 0, 0, 0, 0xFF, 0xFF]
            },
            LineWrite {
                line: 3,
                bytes: [0x3F, 0, 0, 0, 0, 0, 0, 0]
            },
            LineWrite {
                line: 2,
                bytes: [0xFF, 0xFF, 0x3F, 0, 0xF0, 5, 0xFF, 0xFF]
            },
            LineWrite {
                line: 2,
                bytes: [0x1E, 0x42, 0x30, 0, 0xF0, 5, 0xFF, 0xFF]
            },
        ]
        .as_slice()
    );
    // SERVO1_TRIM
    assert_eq!(rt; value(&bytes, &vehicle_table(), 66), Value::Whole(1520));
    for step in 0..4usize {
        assert!(rt; convert_step(&mut bytes, step).is_empty(), "at {step}");
    }
}

#[test]
fn leaves_what_is_a_default_already(rt: HostRuntime) {
    let zeros = [0x67, 5, 0, 0, 0, 0, 0, 0, 0, 0, 0, 0, 0, 0, 0, 0];
    for (step, record) in [
        (0, [0x64u8, 2, 0, 0, 0xDC, 5].as_slice()),
        (1, [0x65, 4, 0, 0, 0, 0, 0x96, 0x43].as_slice()),
        (2, [0x66, 3, 0, 0, 0xDC, 5, 0, 0].as_slice()),
        (3, zeros.as_slice()),
    ] {
        if record.len() <= 16 {
            let mut bytes = stored(record);
            assert!(rt; convert_step(&mut bytes, step).is_empty(), "at {step}");
        }
    }
}

#[test]
fn copies_patterns_as_they_are(rt: HostRuntime) {
    let table = vehicle_table();
    // FENCE_RADIUS takes a pattern that is no number.
    let mut bytes = stored(&[0x65, 4, 0, 0, 1, 0, 0xC0, 0x7F]);
    assert!(rt; !convert_step(&mut bytes, 1).is_empty());
    assert_eq!(rt; value(&bytes, &table, 12), Value::Bits(0x7FC0_0001));
    // COMPASS_OFS differs from its default in its third part alone, and takes all three.
    let mut bytes = stored(&[0x67, 5, 0, 0, 0, 0, 0, 0, 0, 0, 0, 0, 0, 0, 0x80, 0x3F]);
    assert!(rt; !convert_step(&mut bytes, 3).is_empty());
    assert_eq!(rt; value(&bytes, &table, 21), Value::Bits(0));
    assert_eq!(rt; value(&bytes, &table, 22), Value::Bits(0));
    assert_eq!(rt; value(&bytes, &table, 23), Value::Bits(0x3F80_0000));
}

#[test]
fn leaves_a_record_that_is_there(rt: HostRuntime) {
    // RTL_ALT is stored as 1500, its default, and the key 102 has 2000.
    let mut bytes = stored(&[1, 3, 0, 0, 0xDC, 5, 0, 0, 0x66, 3, 0, 0, 0xD0, 7, 0, 0]);
    assert!(rt; convert_step(&mut bytes, 2).is_empty());
    assert_eq!(rt; value(&bytes, &vehicle_table(), 1), Value::Whole(1500));
}

/// Storage with the key 100 and 605 records of three floats after it, and then these.
fn filled(last: &[u8]) -> [u8; STORAGE_BYTES] {
    let mut bytes = stored(&[0x64, 2, 0, 0, 0xF0, 5]);
    for k in 0..605u16 {
        let mut batch = Batch::new();
        let _ = split(Area::Param, 16 + 16 * k, &[1, 5], &bytes, &mut batch);
        apply_all(batch.as_slice(), &mut bytes);
    }
    let mut batch = Batch::new();
    let _ = split(Area::Param, 9696, last, &bytes, &mut batch);
    apply_all(batch.as_slice(), &mut bytes);
    bytes
}

#[test]
fn makes_no_record_that_does_not_fit(rt: HostRuntime) {
    // An i16 record and the sentinel after it are ten bytes, and the area has 9,728.
    let mut bytes = filled(&[
        1, 2, 0, 0, 0, 0, 1, 2, 0, 0, 0, 0, 1, 1, 0, 0, 0, 1, 1, 0, 0, 0,
    ]);
    assert_eq!(rt; end_place(&bytes), 9718);
    assert!(rt; !convert_step(&mut bytes, 0).is_empty());
    assert_eq!(rt; end_place(&bytes), 9724);
    let mut bytes = filled(&[
        1, 4, 0, 0, 0, 0, 0, 0, 1, 1, 0, 0, 0, 1, 1, 0, 0, 0, 1, 1, 0, 0, 0,
    ]);
    assert_eq!(rt; end_place(&bytes), 9719);
    assert!(rt; convert_step(&mut bytes, 0).is_empty());
}
