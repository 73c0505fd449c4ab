//! Worked values: bytes of known places, and the lines that they change.
ghost use Rattle.std.specs.Prelude.{◌≡◌};

use crate::*;

fn write(line: u16, bytes: [u8; 8]) -> LineWrite
    ensures { result.line ≡ line }
{
    LineWrite { line, bytes }
}

#[test]
fn writes_a_mission_command_in_three_lines(rt: HostRuntime) {
    let mut bytes = [0; STORAGE_BYTES];
    apply(&write(160, [0xAE, 0x65, 0, 0, 0, 0, 0, 0]), &mut bytes);
    let command = [
        0x10, 5, 0, 1, 0xE8, 0x0B, 0, 0x4C, 0x52, 0x40, 0x1C, 0x62, 0xF4, 0x17, 5,
    ];
    let mut batch = Batch::new();
    assert_eq!(rt;
        split(Area::Mission, 4, &command, &bytes, &mut batch),
        Ok(())
    );
    assert_eq!(rt;
        batch.as_slice(),
        [
            write(160, [0xAE, 0x65, 0, 0, 0x10, 5, 0, 1]),
            write(161, [0xE8, 0x0B, 0, 0x4C, 0x52, 0x40, 0x1C, 0x62]),
            write(162, [0xF4, 0x17, 5, 0, 0, 0, 0, 0]),
        ]
        .as_slice()
    );
}

#[test]
fn goes_on_in_the_next_part_of_an_area(rt: HostRuntime) {
    let mut bytes = [0; STORAGE_BYTES];
    let mut batch = Batch::new();
    // Byte 3786 is the first of the rally points, in the line of the last mission byte of its part.
    apply(&write(473, [7; 8]), &mut bytes);
    assert_eq!(rt;
        split(Area::Mission, 2505, &[1, 2], &bytes, &mut batch),
        Ok(())
    );
    assert_eq!(rt;
        batch.as_slice(),
        [
            write(473, [7, 1, 7, 7, 7, 7, 7, 7]),
            write(741, [0, 0, 0, 0, 2, 0, 0, 0]),
        ]
        .as_slice()
    );
    // The bytes that the batch already writes are not written again.
    assert_eq!(rt;
        split(Area::Mission, 2505, &[1, 2], &bytes, &mut batch),
        Ok(())
    );
    assert_eq!(rt; batch.len(), 2);
    let mut first = [0; 3];
    read(Area::Rally, 0, &bytes, &mut first);
    assert_eq!(rt; first, [7, 7, 7]);
}

#[test]
fn refuses_what_does_not_lie_in_the_area(rt: HostRuntime) {
    let bytes = [0; STORAGE_BYTES];
    let mut batch = Batch::new();
    assert_eq!(rt; split(Area::Bind, 50, &[1; 6], &bytes, &mut batch), Ok(()));
    assert_eq!(rt;
        split(Area::Bind, 51, &[1; 6], &bytes, &mut batch),
        Err(SplitError::OutOfArea)
    );
    assert_eq!(rt; batch.len(), 1);
    assert_eq!(rt;
        split(Area::Param, 0, &[1; 505], &bytes, &mut batch),
        Err(SplitError::NoPlace)
    );
    assert_eq!(rt; batch.len(), 1);
}
