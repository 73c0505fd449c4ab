//! What no clause says: worked messages.
use crate::*;
use mav_messages::Reply;
use storage_lines::{LineWrite, STORAGE_BYTES};

const SENDER: Sender = Sender {
    station: 5,
    system: 255,
    component: 190,
};

/// The storage formatted: the magic, and MIS_TOTAL with the value 0.
const LINE_0: [u8; 8] = [0x50, 0x41, 6, 0, 0x14, 0x42, 0, 0];

const LINE_1: [u8; 8] = [0, 0, 0xFF, 0xFF, 0x3F, 0, 0, 0];

fn formatted() -> [u8; STORAGE_BYTES] {
    let mut bytes = [0; STORAGE_BYTES];
    bytes[..8].copy_from_slice(&LINE_0);
    bytes[8..16].copy_from_slice(&LINE_1);
    bytes
}

/// PARAM_SET of FS_THR_ENABLE, whose default is 1.
fn failsafe(bits: u32) -> Message {
    Message::ParamSet {
        param_value: bits,
        target_system: 1,
        target_component: 1,
        param_id: *b"FS_THR_ENABLE\0\0\0",
        param_type: 9,
    }
}

/// Whether the reply shows FS_THR_ENABLE with this pattern to all.
fn shows_failsafe(reply: &Reply, bits: u32) -> bool {
    match reply.message {
        Message::ParamValue {
            param_value,
            param_count: 240,
            param_index: 3,
            param_id: _,
            param_type: 2,
        } => param_value == bits && matches!(reply.to, To::All),
        _ => false,
    }
}

#[test]
fn reads_a_row_by_a_name_of_sixteen_bytes(rt: HostRuntime) {
    let mut state = ParamState::new();
    let bytes = [0; STORAGE_BYTES];
    state.refresh(&bytes);
    let request = Message::ParamRequestRead {
        param_index: -1,
        target_system: 1,
        target_component: 1,
        param_id: *b"SERVO16_FUNCTION",
    };
    let mut batch = Batch::new();
    let mut replies = Replies::new();
    answer(
        &mut state,
        &bytes,
        None,
        SENDER,
        &request,
        &mut batch,
        &mut replies,
    );
    assert_eq!(rt; replies.len(), 1);
    let reply = replies[0];
    assert!(rt; matches!(reply.to, To::Station(5)));
    match reply.message {
        Message::ParamValue {
            param_value,
            param_count,
            param_index,
            param_id,
            param_type,
        } => {
            assert_eq!(rt;
                (param_value, param_count, param_index, param_type),
                (0, 240, 143, 4)
            );
            assert_eq!(rt; param_id, *b"SERVO16_FUNCTION");
        }
        _ => assert!(rt; false),
    }
    assert!(rt; batch.is_empty());
}

#[test]
fn sets_a_byte_to_what_it_holds_alone(rt: HostRuntime) {
    let mut state = ParamState::new();
    let bytes = formatted();
    for (bits, shown, value) in [
        // 128 is no value of a byte, and so 1 is shown still.
        (0x4300_0000, 0x3F80_0000, None),
        (0xC300_0000, 0xC300_0000, Some(0x80)),
        (0, 0, Some(0)),
    ] {
        state.refresh(&bytes);
        let mut batch = Batch::new();
        let mut replies = Replies::new();
        answer(
            &mut state,
            &bytes,
            None,
            SENDER,
            &failsafe(bits),
            &mut batch,
            &mut replies,
        );
        assert_eq!(rt; replies.len(), 1);
        assert!(rt; shows_failsafe(&replies[0], shown), "at {bits}");
        let header_last = value.map(|byte| LineWrite {
            line: 1,
            bytes: [0, 0, 3, 1, 0, 0, byte, 0xFF],
        });
        assert_eq!(rt; batch.last().copied(), header_last, "at {bits}");
    }
}

#[test]
fn issues_the_lines_of_a_new_record(rt: HostRuntime) {
    let mut batch = Batch::new();
    let mut state = ParamState::new();
    let bytes = formatted();
    state.refresh(&bytes);
    answer(
        &mut state,
        &bytes,
        None,
        SENDER,
        &failsafe(0),
        &mut batch,
        &mut Replies::new(),
    );
    assert_eq!(rt;
        batch.as_slice(),
        [
            LineWrite {
                line: 1,
                bytes: [0, 0, 0xFF, 0xFF, 0x3F, 0, 0, 0xFF]
            },
            LineWrite {
                line: 2,
                bytes: [0xFF, 0x3F, 0, 0, 0, 0, 0, 0]
            },
            LineWrite {
                line: 1,
                bytes: [0, 0, 3, 1, 0, 0, 0, 0xFF]
            },
        ]
        .as_slice()
    );
}

#[test]
fn sends_the_whole_list_in_thirty_stretches(rt: HostRuntime) {
    let mut state = ParamState::new();
    let bytes = [0; STORAGE_BYTES];
    state.refresh(&bytes);
    let request = Message::ParamRequestList {
        target_system: 0,
        target_component: 0,
    };
    answer(
        &mut state,
        &bytes,
        None,
        SENDER,
        &request,
        &mut Batch::new(),
        &mut Replies::new(),
    );
    for stretch in 0..30usize {
        let mut replies = Replies::new();
        state.refresh(&bytes);
        stream(&mut state, &bytes, SENDER.station, &mut replies);
        assert_eq!(rt; replies.len(), 8);
        for (i, reply) in replies.as_slice().iter().enumerate() {
            match reply.message {
                Message::ParamValue { param_index, .. } => {
                    assert_eq!(rt; param_index as usize, 8 * stretch + i)
                }
                _ => assert!(rt; false),
            }
        }
    }
    for station in [SENDER.station, 4] {
        let mut replies = Replies::new();
        state.refresh(&bytes);
        stream(&mut state, &bytes, station, &mut replies);
        assert!(rt; replies.is_empty());
    }
}
