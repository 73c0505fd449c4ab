//! Worked values: a circle's four lines, counts that don't agree, a fence that is cleared.
use crate::*;
use mission_commands::Item;
use storage_lines::{Batch, LineWrite, STORAGE_BYTES};
use word_bits::bits_of;

const VERTEX: Item = Item {
    param1: 0x4040_0000,
    param2: 0,
    param3: 0,
    param4: 0,
    x: 473_977_420,
    y: 85_455_970,
    z: 0,
    seq: 0,
    command: 5001,
    frame: 0,
    current: 0,
    autocontinue: 1,
};

#[test]
fn a_circle_is_written_in_four_lines(rt: HostRuntime) {
    let current = [0u8; STORAGE_BYTES];
    let mut batch = Batch::new();
    let Ok(circle) = from_item(&Item {
        command: 5003,
        param1: 0x42C8_0000,
        ..VERTEX
    }) else {
        panic!(rt; "refused");
    };
    let items = [circle];
    let Ok(()) = check(&items) else {
        panic!(rt; "no fence");
    };
    assert_eq!(rt; write(&current, &items, &mut batch), Ok(()));
    assert_eq!(rt;
        batch.as_slice(),
        [
            LineWrite {
                line: 492,
                bytes: [0xEB, 0, 0, 0, 0x63, 0, 0, 0]
            },
            LineWrite {
                line: 493,
                bytes: [0x1C, 0x62, 0xF4, 0x17, 5, 0, 0, 0xC8]
            },
            LineWrite {
                line: 494,
                bytes: [0x42, 0x63, 0, 0, 0, 0, 0, 0]
            },
            LineWrite {
                line: 492,
                bytes: [0xEB, 0, 0, 0, 0x5C, 0x4C, 0x52, 0x40]
            },
        ]
        .as_slice()
    );
}

#[test]
fn a_fence_of_other_counts_is_refused(rt: HostRuntime) {
    let Ok(vertex) = from_item(&VERTEX) else {
        panic!(rt; "refused");
    };
    assert_eq!(rt; check(&[vertex, vertex, vertex]), Ok(()));
    assert_eq!(rt; check(&[vertex, vertex]), Err(5));
    assert_eq!(rt; check(&[vertex, vertex, vertex, vertex]), Err(5));
    assert_eq!(rt; to_item(&vertex, 7).param1, bits_of(3));
}

#[test]
fn a_cleared_fence_is_empty(rt: HostRuntime) {
    let current = [0u8; STORAGE_BYTES];
    let mut batch = Batch::new();
    clear(&current, &mut batch);
    assert_eq!(rt;
        batch.as_slice(),
        [LineWrite {
            line: 492,
            bytes: [0xEB, 0, 0, 0, 0x63, 0, 0, 0]
        }]
        .as_slice()
    );
    assert_eq!(rt; parse(&current).len(), 0);
    fence_is_listed();
    figures_are_cuts();
    fences_are_replaced();
    fences_in_steps();
    counts_have_patterns();
    keeps_fence_items();
    has_one_fence_result();
}
