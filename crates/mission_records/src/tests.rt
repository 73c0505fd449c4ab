//! Worked values: the lines of a first command, of one in both spans of the area and of the last
//! one; a storage too full for MIS_TOTAL; totals and versions that count as none.
ghost use Rattle.std.specs.Prelude.{◌≡◌, length};

use crate::*;
use mission_commands::Command;
use param_records::{MAGIC, SetError, append, format_batch, set};
use param_tree::{Kind, vehicle_table};
use storage_lines::{Area, Batch, LINES, LineWrite, STORAGE_BYTES, apply, split};

const WAYPOINT: Command = Command {
    id: 16,
    p1: 5,
    content: [
        1, 0xE8, 0x0B, 0, 0x4C, 0x52, 0x40, 0x1C, 0x62, 0xF4, 0x17, 5,
    ],
};

fn apply_all(writes: &[LineWrite], bytes: &mut [u8])
    requires { length bytes.old ≡ STORAGE_BYTES }
{
    for write in writes {
        if (write.line as usize) < LINES {
            apply(write, bytes);
        }
    }
}

fn formatted() -> [u8; STORAGE_BYTES] {
    let mut bytes = [0; STORAGE_BYTES];
    let mut batch = Batch::new();
    format_batch(&bytes, &mut batch);
    apply_all(batch.as_slice(), &mut bytes);
    bytes
}

/// The formatted storage after a mission has begun.
fn begun() -> [u8; STORAGE_BYTES] {
    let mut bytes = formatted();
    let mut batch = Batch::new();
    begin(&bytes, &mut batch);
    apply_all(batch.as_slice(), &mut bytes);
    bytes
}

/// The storage without a record of MIS_TOTAL, and with no room for one: its records end at 9,721.
fn full() -> [u8; STORAGE_BYTES] {
    let mut bytes = [0; STORAGE_BYTES];
    let mut batch = Batch::new();
    let _ = split(Area::Param, 0, &MAGIC, &bytes, &mut batch);
    apply_all(batch.as_slice(), &mut bytes);
    for i in 0..607usize {
        let mut record = Batch::new();
        append(
            &bytes,
            4 + 16 * i,
            100,
            0,
            Kind::Vec3,
            &[0; 12],
            &mut record,
        );
        apply_all(record.as_slice(), &mut bytes);
    }
    let mut last = Batch::new();
    append(&bytes, 9716, 100, 0, Kind::I8, &[0; 1], &mut last);
    apply_all(last.as_slice(), &mut bytes);
    bytes
}

#[test]
fn a_first_command_is_written_in_four_lines(rt: HostRuntime) {
    let mut bytes = formatted();
    assert!(rt; total_in_one_line(&bytes));
    let mut batch = Batch::new();
    begin(&bytes, &mut batch);
    assert_eq!(rt;
        batch.as_slice(),
        [LineWrite {
            line: 160,
            bytes: [0xAE, 0x65, 0, 0, 0, 0, 0, 0]
        }]
        .as_slice()
    );
    apply_all(batch.as_slice(), &mut bytes);
    let mut lines = Batch::new();
    assert_eq!(rt; put(&bytes, 0, &WAYPOINT, &mut lines), Ok(()));
    assert_eq!(rt;
        lines.as_slice(),
        [
            LineWrite {
                line: 160,
                bytes: [0xAE, 0x65, 0, 0, 0x10, 5, 0, 1]
            },
            LineWrite {
                line: 161,
                bytes: [0xE8, 0x0B, 0, 0x4C, 0x52, 0x40, 0x1C, 0x62]
            },
            LineWrite {
                line: 162,
                bytes: [0xF4, 0x17, 5, 0, 0, 0, 0, 0]
            },
            LineWrite {
                line: 1,
                bytes: [1, 0, 0xFF, 0xFF, 0x3F, 0, 0, 0]
            },
        ]
        .as_slice()
    );
    apply_all(&lines.as_slice()[..3], &mut bytes);
    assert_eq!(rt; total(&bytes), 0);
    apply_all(&lines.as_slice()[3..], &mut bytes);
    assert_eq!(rt; total(&bytes), 1);
    let Some(command) = at(&bytes, 0) else {
        panic!(rt; "no command");
    };
    assert_eq!(rt; (command.id, command.p1), (16, 5));
    assert_eq!(rt; command.content, WAYPOINT.content);
    let mut cleared = Batch::new();
    clear(&bytes, &mut cleared);
    apply_all(cleared.as_slice(), &mut bytes);
    assert!(rt; at(&bytes, 0).is_none());
    begins_in_steps();
    clears_in_steps();
    puts_in_steps();
    sets_no_mission();
    others_keep_missions();
    formats_in_one_line();
}

#[test]
fn a_command_lies_in_both_spans(rt: HostRuntime) {
    let mut bytes = begun();
    let mut lines = Batch::new();
    // Logical places 2494 to 2508: the first span has 2506 bytes.
    assert_eq!(rt; put(&bytes, 166, &WAYPOINT, &mut lines), Ok(()));
    assert_eq!(rt;
        lines.as_slice(),
        [
            LineWrite {
                line: 471,
                bytes: [0, 0, 0, 0, 0, 0, 0x10, 5]
            },
            LineWrite {
                line: 472,
                bytes: [0, 1, 0xE8, 0x0B, 0, 0x4C, 0x52, 0x40]
            },
            LineWrite {
                line: 473,
                bytes: [0x1C, 0x62, 0, 0, 0, 0, 0, 0]
            },
            LineWrite {
                line: 741,
                bytes: [0, 0, 0, 0, 0xF4, 0x17, 5, 0]
            },
            LineWrite {
                line: 1,
                bytes: [0xA7, 0, 0xFF, 0xFF, 0x3F, 0, 0, 0]
            },
        ]
        .as_slice()
    );
    apply_all(lines.as_slice(), &mut bytes);
    let Some(command) = at(&bytes, 166) else {
        panic!(rt; "no command");
    };
    assert_eq!(rt; command.content, WAYPOINT.content);
}

#[test]
fn the_last_command_has_room_in_the_long_form(rt: HostRuntime) {
    let mut bytes = begun();
    let mut lines = Batch::new();
    let command = Command {
        id: 0x0102,
        p1: 0x0304,
        content: [5, 6, 7, 8, 9, 10, 11, 12, 13, 14, 0, 0],
    };
    assert_eq!(rt; put(&bytes, 307, &command, &mut lines), Ok(()));
    assert_eq!(rt;
        lines.as_slice(),
        [
            LineWrite {
                line: 1004,
                bytes: [0, 0, 0, 1, 2, 1, 4, 3]
            },
            LineWrite {
                line: 1005,
                bytes: [5, 6, 7, 8, 9, 10, 11, 12]
            },
            LineWrite {
                line: 1006,
                bytes: [13, 14, 0, 0, 0, 0, 0, 0]
            },
            LineWrite {
                line: 1,
                bytes: [0x34, 1, 0xFF, 0xFF, 0x3F, 0, 0, 0]
            },
        ]
        .as_slice()
    );
    apply_all(lines.as_slice(), &mut bytes);
    assert_eq!(rt; total(&bytes), 308);
    let Some(last) = at(&bytes, 307) else {
        panic!(rt; "no command");
    };
    assert_eq!(rt; (last.id, last.p1), (0x0102, 0x0304));
    assert_eq!(rt; last.content, command.content);
    assert!(rt; at(&bytes, 308).is_none());
}

#[test]
fn a_full_parameter_storage_takes_no_command(rt: HostRuntime) {
    let bytes = full();
    assert!(rt; !total_in_one_line(&bytes));
    let mut batch = Batch::new();
    begin(&bytes, &mut batch);
    assert_eq!(rt; batch.len(), 1);
    let mut lines = Batch::new();
    assert_eq!(rt;
        put(&bytes, 0, &WAYPOINT, &mut lines),
        Err(SetError::Full { end: 9721 })
    );
    assert!(rt; lines.is_empty());
}

#[test]
fn a_total_is_limited(rt: HostRuntime) {
    let mut bytes = begun();
    // The patterns of -1, -32768, 7, 309 and 32767.
    for (bits, expected) in [
        (0xBF80_0000u32, 0),
        (0xC700_0000, 0),
        (0x40E0_0000, 7),
        (0x439A_8000, 308),
        (0x46FF_FE00, 308),
    ] {
        let mut batch = Batch::new();
        assert_eq!(rt;
            set(&bytes, &vehicle_table(), TOTAL_INDEX, bits, &mut batch),
            Ok(())
        );
        apply_all(batch.as_slice(), &mut bytes);
        assert_eq!(rt; total(&bytes), expected, "of {bits:08X}");
    }
    // The version's last byte: logical place 3 of the mission.
    bytes[1283] = 1;
    assert_eq!(rt; total(&bytes), 0);
    assert!(rt; at(&bytes, 0).is_none());
}
