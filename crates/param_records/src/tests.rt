//! What no clause says: worked values.
ghost use Rattle.std.specs.Prelude.{◌≡◌, length};

use crate::*;
use param_tree::{Kind, vehicle_table};
use storage_lines::{Batch, LINES, LineWrite, STORAGE_BYTES, apply};

fn apply_all(writes: &[LineWrite], bytes: &mut [u8])
    requires { length bytes.old ≡ STORAGE_BYTES }
{
    for write in writes {
        if (write.line as usize) < LINES {
            apply(write, bytes);
        }
    }
}

fn formatted() -> [u8; STORAGE_BYTES] {
    let mut bytes = [0; STORAGE_BYTES];
    let mut batch = Batch::new();
    format_batch(&bytes, &mut batch);
    apply_all(batch.as_slice(), &mut bytes);
    bytes
}

#[test]
fn formats_zeros_and_again_after_a_loss(rt: HostRuntime) {
    let mut bytes = [0; STORAGE_BYTES];
    let mut batch = Batch::new();
    assert!(rt; format_batch(&bytes, &mut batch));
    assert_eq!(rt;
        batch.as_slice(),
        [
            LineWrite {
                line: 1,
                bytes: [0, 0, 0xFF, 0xFF, 0x3F, 0, 0, 0]
            },
            LineWrite {
                line: 0,
                bytes: [0x50, 0x41, 6, 0, 0x14, 0x42, 0, 0]
            },
        ]
        .as_slice()
    );
    apply_all(&batch.as_slice()[..1], &mut bytes);
    let mut again = Batch::new();
    assert!(rt; format_batch(&bytes, &mut again));
    assert_eq!(rt; again.as_slice(), &batch.as_slice()[1..]);
    apply_all(again.as_slice(), &mut bytes);
    assert!(rt; !format_batch(&bytes, &mut Batch::new()));
}

#[test]
fn appends_the_sentinel_the_value_and_the_header(rt: HostRuntime) {
    let bytes = formatted();
    let mut batch = Batch::new();
    assert_eq!(rt; end_place(&bytes), 10);
    // FS_THR_ENABLE becomes 0.
    assert_eq!(rt;
        set_whole(&bytes, &vehicle_table(), 3, 0, &mut batch),
        Ok(())
    );
    assert_eq!(rt;
        batch.as_slice(),
        [
            LineWrite {
                line: 1,
                bytes: [0, 0, 0xFF, 0xFF, 0x3F, 0, 0, 0xFF]
            },
            LineWrite {
                line: 2,
                bytes: [0xFF, 0x3F, 0, 0, 0, 0, 0, 0]
            },
            LineWrite {
                line: 1,
                bytes: [0, 0, 3, 1, 0, 0, 0, 0xFF]
            },
        ]
        .as_slice()
    );
}

#[test]
fn loses_a_new_record_whole(rt: HostRuntime) {
    let mut bytes = formatted();
    let table = vehicle_table();
    // INS_GYRO_FILTER and INS_ACCEL_FILTER become 30.
    for var in [42u16, 43] {
        let mut batch = Batch::new();
        assert_eq!(rt; set(&bytes, &table, var, 0x41F00000, &mut batch), Ok(()));
        apply_all(batch.as_slice(), &mut bytes);
    }
    assert_eq!(rt; end_place(&bytes), 22);
    // MIS_OPTIONS becomes 5, by a header over two lines.
    let mut batch = Batch::new();
    assert_eq!(rt; set(&bytes, &table, 7, 0x40A00000, &mut batch), Ok(()));
    assert_eq!(rt;
        batch.as_slice(),
        [
            LineWrite {
                line: 3,
                bytes: [0x3F, 0, 0, 0, 0xFF, 0xFF, 0x3F, 0]
            },
            LineWrite {
                line: 3,
                bytes: [0x3F, 0, 5, 0, 0xFF, 0xFF, 0x3F, 0]
            },
            LineWrite {
                line: 3,
                bytes: [0, 0, 5, 0, 0xFF, 0xFF, 0x3F, 0]
            },
            LineWrite {
                line: 2,
                bytes: [0x19, 0x42, 1, 0, 0x1E, 0, 0x14, 0xC2]
            },
        ]
        .as_slice()
    );
    apply_all(&batch.as_slice()[..3], &mut bytes);
    assert_eq!(rt; &bytes[22..26], [0xFFu8, 0xFF, 0, 0].as_slice());
    assert_eq!(rt; end_place(&bytes), 22);
    assert_eq!(rt; value(&bytes, &table, 7), Value::Whole(0));
    apply_all(&batch.as_slice()[3..], &mut bytes);
    assert_eq!(rt; value(&bytes, &table, 7), Value::Whole(5));
}

#[test]
fn tears_a_float_at_the_end_of_a_line(rt: HostRuntime) {
    let mut bytes = formatted();
    let table = vehicle_table();
    let mut batch = Batch::new();
    // FENCE_RADIUS, whose value then stands at places 14 to 17.
    assert_eq!(rt; set(&bytes, &table, 12, 0x42C80000, &mut batch), Ok(()));
    apply_all(batch.as_slice(), &mut bytes);
    assert_eq!(rt; place(&bytes, 21, 5, Kind::F32), Some(14));
    let mut again = Batch::new();
    assert_eq!(rt; set(&bytes, &table, 12, 0x3F9D70A4, &mut again), Ok(()));
    assert_eq!(rt; again.len(), 2);
    apply_all(&again.as_slice()[..1], &mut bytes);
    assert_eq!(rt; value(&bytes, &table, 12), Value::Bits(0x42C870A4));
}

#[test]
fn refuses_a_number_that_the_kind_does_not_hold(rt: HostRuntime) {
    let mut bytes = formatted();
    let table = vehicle_table();
    let mut batch = Batch::new();
    // FS_THR_ENABLE is an i8: 128 is none, -128 is one.
    assert_eq!(rt;
        set(&bytes, &table, 3, 0x43000000, &mut batch),
        Err(SetError::Range { bits: 0x43000000 })
    );
    assert_eq!(rt; set(&bytes, &table, 3, 0xC3000000, &mut batch), Ok(()));
    apply_all(batch.as_slice(), &mut bytes);
    assert_eq!(rt; bytes[14], 0x80);
    assert_eq!(rt; value(&bytes, &table, 3), Value::Whole(-128));
}

#[test]
fn writes_headers_of_high_keys_and_elements(rt: HostRuntime) {
    let mut bytes = formatted();
    let table = vehicle_table();
    // LOG_BITMASK has key 300, RC1_MIN has key 31 and element 4033.
    for var in [2u16, 144] {
        let mut batch = Batch::new();
        assert_eq!(rt; set(&bytes, &table, var, 0x40A00000, &mut batch), Ok(()));
        apply_all(batch.as_slice(), &mut bytes);
    }
    assert_eq!(rt; &bytes[10..14], [0x2Cu8, 0x23, 0, 0].as_slice());
    assert_eq!(rt; &bytes[18..22], [0x1Fu8, 0x42, 0xF0, 3].as_slice());
    assert_eq!(rt; place(&bytes, 31, 4033, Kind::I16), Some(22));
}
