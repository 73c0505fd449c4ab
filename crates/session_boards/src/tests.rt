//! The first datagrams of the generated session, byte by byte, how many events sessions have, and a
//! board that counts frames.
ghost use Rattle.std.specs.Prelude.{◌≡◌};

use crate::session::event_at;
use crate::{CountBoard, Session};
use flash_traits::{Board, DATAGRAM_BYTES, Event};
use std::alloc::Global;
use std::marker::Brand;
use std::process::Abort;

// PARAM_SET SERVO1_MIN 0, INT16, sequence 0.
const FIRST_SET: &[u8] = &[
    0xFD, 0x17, 0, 0, 0, 0xFF, 0xBE, 0x17, 0, 0, 0, 0, 0, 0, 1, 1, 0x53, 0x45, 0x52, 0x56, 0x4F,
    0x31, 0x5F, 0x4D, 0x49, 0x4E, 0, 0, 0, 0, 0, 0, 4, 0xE6, 0xDD,
];

// MISSION_COUNT 5, sequence 1.
const COUNT: &[u8] = &[
    0xFD, 4, 0, 0, 1, 0xFF, 0xBE, 0x2C, 0, 0, 5, 0, 1, 1, 0x0E, 0x22,
];

// MISSION_ITEM_INT 0: x 473977420, y 85455970, z 10; sequence 2.
const FIRST_ITEM: &[u8] = &[
    0xFD, 0x25, 0, 0, 2, 0xFF, 0xBE, 0x49, 0, 0, 0, 0, 0, 0, 0, 0, 0, 0, 0, 0, 0, 0, 0, 0, 0, 0,
    0x4C, 0x52, 0x40, 0x1C, 0x62, 0xF4, 0x17, 5, 0, 0, 0x20, 0x41, 0, 0, 0x10, 0, 1, 1, 3, 0, 1,
    0x13, 0x6C,
];

// MISSION_ITEM_INT 4: y 85455974, z 14; sequence 6.
const LAST_ITEM: &[u8] = &[
    0xFD, 0x25, 0, 0, 6, 0xFF, 0xBE, 0x49, 0, 0, 0, 0, 0, 0, 0, 0, 0, 0, 0, 0, 0, 0, 0, 0, 0, 0,
    0x4C, 0x52, 0x40, 0x1C, 0x66, 0xF4, 0x17, 5, 0, 0, 0x60, 0x41, 4, 0, 0x10, 0, 1, 1, 3, 0, 1,
    0x7E, 0x61,
];

// PARAM_SET SERVO1_MAX 1, INT16, sequence 7.
const SECOND_SET: &[u8] = &[
    0xFD, 0x17, 0, 0, 7, 0xFF, 0xBE, 0x17, 0, 0, 0, 0, 0x80, 0x3F, 1, 1, 0x53, 0x45, 0x52, 0x56,
    0x4F, 0x31, 0x5F, 0x4D, 0x41, 0x58, 0, 0, 0, 0, 0, 0, 4, 0x4B, 0x92,
];

// COMMAND_LONG 245 with param1 1, in round 15, sequence 28.
const FLUSH: &[u8] = &[
    0xFD, 0x20, 0, 0, 0x1C, 0xFF, 0xBE, 0x4C, 0, 0, 0, 0, 0x80, 0x3F, 0, 0, 0, 0, 0, 0, 0, 0, 0, 0,
    0, 0, 0, 0, 0, 0, 0, 0, 0, 0, 0, 0, 0, 0, 0xF5, 0, 1, 1, 0x9D, 0x3F,
];

#[test]
fn makes_the_datagrams_of_a_session(rt: HostRuntime) {
    for (number, bytes) in [
        (0, FIRST_SET),
        (1, COUNT),
        (2, FIRST_ITEM),
        (6, LAST_ITEM),
        (8, SECOND_SET),
        (43, FLUSH),
    ] {
        let mut buffer = [0; DATAGRAM_BYTES];
        let event = event_at(16, number, &mut buffer);
        let len = bytes.len().min(DATAGRAM_BYTES) as u16;
        assert_eq!(rt; event, Event::Datagram { peer: 0, len }, "at {number}");
        assert_eq!(rt; buffer.get(..bytes.len()), Some(bytes), "at {number}");
    }
}

#[test]
fn sessions_have_so_many_events_and_then_the_end(rt: HostRuntime) {
    let mut buffer = [0; DATAGRAM_BYTES];
    for (rounds, last, end) in [(1, 7, 8), (10, 25, 26), (16, 44, 45), (1000, 2661, 2662)] {
        assert_eq!(rt; event_at(rounds, last, &mut buffer), Event::Idle);
        assert_eq!(rt; event_at(rounds, end, &mut buffer), Event::End);
        assert_eq!(rt; event_at(rounds, u64::MAX, &mut buffer), Event::End);
    }
}

fn drive<N: Session>(rt: &impl Abort, alloc: Global)
    requires { N.rounds ≡ 1 }
{
    let Ok(mut board) = CountBoard::<N>::new(alloc, 1) else {
        panic!(rt; "no memory");
    };
    assert!(rt; board.attach("", 0, None).is_ok());
    let mut buffer = [0; DATAGRAM_BYTES];
    let first = board.recv(&mut buffer);
    assert_eq!(rt; first, Ok(Event::Datagram { peer: 0, len: 35 }));
    let second = board.recv(&mut buffer);
    assert_eq!(rt; second, Ok(Event::Datagram { peer: 0, len: 16 }));
    assert_eq!(rt; buffer.get(..16), Some(COUNT));
    assert_eq!(rt; board.send(0, COUNT), Ok(()));
    assert_eq!(rt; board.frames(), 1);
}

#[test]
fn a_board_gives_the_events_and_counts_the_frames(rt: HostRuntime) {
    drive::<Brand>(&rt, rt.alloc());
}
