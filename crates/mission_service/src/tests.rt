//! Worked values: a mission of one waypoint, uploads of two stations at once, finished and
//! cancelled uploads, a fence of one circle, idle turns, and lines that may not be issued.
ghost use Rattle.std.specs.Prelude.{◌≡◌, ◌<◌, length};

use crate::*;
use mav_messages::To;
use param_records::format_batch;
use storage_lines::{LINES, LineWrite, apply};

/// The MAV_MISSION_TYPE of a mission, and of a fence.
const MISSION: u8 = 0;

const FENCE: u8 = 1;

/// A ground station's system and component.
const SYSTEM: u8 = 255;

const COMPONENT: u8 = 190;

fn apply_all(writes: &[LineWrite], bytes: &mut [u8])
    requires { length bytes.old ≡ STORAGE_BYTES }
{
    for write in writes {
        if (write.line as usize) < LINES {
            apply(write, bytes);
        }
    }
}

fn formatted() -> [u8; STORAGE_BYTES] {
    let mut bytes = [0; STORAGE_BYTES];
    let mut batch = Batch::new();
    format_batch(&bytes, &mut batch);
    apply_all(batch.as_slice(), &mut bytes);
    bytes
}

/// What a message of a station does: its lines are applied, and given with the replies.
fn serve_one(
    state: &mut MissionState,
    bytes: &mut [u8],
    allowed: Option<u32>,
    station: u8,
    message: &Message,
) -> (Batch, Replies)
    requires size { length bytes.old ≡ STORAGE_BYTES }
    requires station { station < STATIONS }
{
    let mut batch = Batch::new();
    let mut replies = Replies::new();
    let from = Sender {
        station,
        system: SYSTEM,
        component: COMPONENT,
    };
    answer(
        state,
        bytes,
        allowed,
        from,
        message,
        &mut batch,
        &mut replies,
    );
    apply_all(batch.as_slice(), bytes);
    (batch, replies)
}

/// The replies to a message of a station that isn't armed.
fn replies_to(state: &mut MissionState, bytes: &mut [u8], station: u8, message: &Message) -> Replies
    requires size { length bytes.old ≡ STORAGE_BYTES }
    requires station { station < STATIONS }
{
    serve_one(state, bytes, None, station, message).1
}

fn count_of(count: u16, mission_type: u8) -> Message {
    Message::MissionCount {
        count,
        target_system: 1,
        target_component: 1,
        mission_type,
    }
}

/// A waypoint with a number.
fn waypoint(seq: u16) -> Message {
    Message::MissionItemInt {
        param1: 0x40A0_0000,
        param2: 0,
        param3: 0,
        param4: 0,
        x: 473_977_420,
        y: 85_455_970,
        z: 0x41F3_D70A,
        seq,
        command: 16,
        target_system: 1,
        target_component: 1,
        frame: 3,
        current: 0,
        autocontinue: 1,
        mission_type: MISSION,
    }
}

/// A circle to stay inside, with a radius of 100 m.
fn circle() -> Message {
    Message::MissionItemInt {
        param1: 0x42C8_0000,
        param2: 0,
        param3: 0,
        param4: 0,
        x: 473_977_420,
        y: 85_455_970,
        z: 0,
        seq: 0,
        command: 5003,
        target_system: 1,
        target_component: 1,
        frame: 0,
        current: 0,
        autocontinue: 1,
        mission_type: FENCE,
    }
}

fn clear_of(mission_type: u8) -> Message {
    Message::MissionClearAll {
        target_system: 1,
        target_component: 1,
        mission_type,
    }
}

fn cancel_of(mission_type: u8) -> Message {
    Message::MissionAck {
        target_system: 1,
        target_component: 1,
        kind: 15,
        mission_type,
    }
}

fn request_of(seq: u16, mission_type: u8) -> Message {
    Message::MissionRequestInt {
        seq,
        target_system: 1,
        target_component: 1,
        mission_type,
    }
}

fn list_of(mission_type: u8) -> Message {
    Message::MissionRequestList {
        target_system: 1,
        target_component: 1,
        mission_type,
    }
}

/// Whether the one reply is MISSION_ACK with this result.
fn is_answer(replies: &Replies, answer: u8, number: u8) -> bool {
    if replies.len() != 1 {
        return false;
    }
    match replies[0].message {
        Message::MissionAck {
            target_system: SYSTEM,
            target_component: COMPONENT,
            kind,
            mission_type,
        } => kind == answer && mission_type == number,
        _ => false,
    }
}

/// Whether the one reply is MISSION_REQUEST_INT of this item.
fn is_request(replies: &Replies, item: u16, number: u8) -> bool {
    if replies.len() != 1 {
        return false;
    }
    match replies[0].message {
        Message::MissionRequestInt {
            seq,
            target_system: SYSTEM,
            target_component: COMPONENT,
            mission_type,
        } => seq == item && mission_type == number,
        _ => false,
    }
}

/// Whether the one reply is MISSION_COUNT of so many items.
fn is_count(replies: &Replies, items: u16, number: u8) -> bool {
    if replies.len() != 1 {
        return false;
    }
    match replies[0].message {
        Message::MissionCount {
            count,
            target_system: SYSTEM,
            target_component: COMPONENT,
            mission_type,
        } => count == items && mission_type == number,
        _ => false,
    }
}

#[test]
fn a_mission_of_one_waypoint_is_uploaded_and_downloaded(rt: HostRuntime) {
    let mut state = MissionState::new();
    let mut bytes = formatted();
    let (begun, told) = serve_one(&mut state, &mut bytes, None, 0, &count_of(1, MISSION));
    assert_eq!(rt;
        begun.as_slice(),
        [LineWrite {
            line: 160,
            bytes: [0xAE, 0x65, 0, 0, 0, 0, 0, 0]
        }]
        .as_slice()
    );
    assert!(rt; is_request(&told, 0, MISSION));
    let (put, told) = serve_one(&mut state, &mut bytes, None, 0, &waypoint(0));
    assert_eq!(rt;
        put.as_slice(),
        [
            LineWrite {
                line: 160,
                bytes: [0xAE, 0x65, 0, 0, 0x10, 5, 0, 1]
            },
            LineWrite {
                line: 161,
                bytes: [0xE8, 0x0B, 0, 0x4C, 0x52, 0x40, 0x1C, 0x62]
            },
            LineWrite {
                line: 162,
                bytes: [0xF4, 0x17, 5, 0, 0, 0, 0, 0]
            },
            LineWrite {
                line: 1,
                bytes: [1, 0, 0xFF, 0xFF, 0x3F, 0, 0, 0]
            },
        ]
        .as_slice()
    );
    assert!(rt; is_answer(&told, 0, MISSION));
    assert!(rt;
        is_count(
            &replies_to(&mut state, &mut bytes, 3, &list_of(MISSION)),
            1,
            MISSION
        )
    );
    let shown = replies_to(&mut state, &mut bytes, 3, &request_of(0, MISSION));
    assert_eq!(rt; shown.len(), 1);
    match shown[0].message {
        Message::MissionItemInt {
            param1,
            x,
            y,
            z,
            seq: 0,
            command: 16,
            frame: 3,
            mission_type: MISSION,
            ..
        } => assert_eq!(rt;
            (param1, x, y, z),
            (0x40A0_0000, 473_977_420, 85_455_970, 0x41F3_D70A)
        ),
        _ => assert!(rt; false),
    }
    assert!(rt; matches!(shown[0].to, To::Station(3)));
    let past = replies_to(&mut state, &mut bytes, 3, &request_of(1, MISSION));
    assert!(rt; is_answer(&past, 13, MISSION));
    asks_one_thing();
    asks_what_fits();
}

#[test]
fn counts_up_to_the_capacity_open_an_upload(rt: HostRuntime) {
    let mut state = MissionState::new();
    let mut bytes = formatted();
    let too_many = replies_to(&mut state, &mut bytes, 0, &count_of(309, MISSION));
    assert!(rt; is_answer(&too_many, 4, MISSION));
    let most = replies_to(&mut state, &mut bytes, 0, &count_of(308, MISSION));
    assert!(rt; is_request(&most, 0, MISSION));
    let too_many = replies_to(&mut state, &mut bytes, 0, &count_of(52, FENCE));
    assert!(rt; is_answer(&too_many, 4, FENCE));
    let most = replies_to(&mut state, &mut bytes, 0, &count_of(51, FENCE));
    assert!(rt; is_request(&most, 0, FENCE));
    let unnamed = replies_to(&mut state, &mut bytes, 0, &count_of(1, 2));
    assert!(rt; is_answer(&unnamed, 3, 2));
}

#[test]
fn another_station_is_denied(rt: HostRuntime) {
    let mut state = MissionState::new();
    let mut bytes = formatted();
    let first = replies_to(&mut state, &mut bytes, 0, &count_of(3, MISSION));
    assert!(rt; is_request(&first, 0, MISSION));
    let next = replies_to(&mut state, &mut bytes, 0, &waypoint(0));
    assert!(rt; is_request(&next, 1, MISSION));
    for message in [count_of(2, MISSION), waypoint(1), clear_of(MISSION)] {
        let other = replies_to(&mut state, &mut bytes, 1, &message);
        assert!(rt; is_answer(&other, 14, MISSION));
    }
    let again = replies_to(&mut state, &mut bytes, 0, &waypoint(0));
    assert!(rt; is_request(&again, 1, MISSION));
    let further = replies_to(&mut state, &mut bytes, 0, &waypoint(2));
    assert!(rt; is_answer(&further, 13, MISSION));
    let next = replies_to(&mut state, &mut bytes, 0, &waypoint(1));
    assert!(rt; is_request(&next, 2, MISSION));
}

#[test]
fn the_last_item_of_a_finished_upload_is_accepted_again(rt: HostRuntime) {
    let mut state = MissionState::new();
    let mut bytes = formatted();
    let first = replies_to(&mut state, &mut bytes, 0, &count_of(1, MISSION));
    assert!(rt; is_request(&first, 0, MISSION));
    for _ in 0..2 {
        let (_, told) = serve_one(&mut state, &mut bytes, None, 0, &waypoint(0));
        assert!(rt; is_answer(&told, 0, MISSION));
    }
    let other = replies_to(&mut state, &mut bytes, 1, &waypoint(0));
    assert!(rt; is_answer(&other, 1, MISSION));
    let (lines, told) = serve_one(&mut state, &mut bytes, None, 0, &clear_of(255));
    assert!(rt; is_answer(&told, 0, 255));
    assert_eq!(rt; lines.len(), 2);
    let late = replies_to(&mut state, &mut bytes, 0, &waypoint(0));
    assert!(rt; is_answer(&late, 1, MISSION));
    assert!(rt;
        is_count(
            &replies_to(&mut state, &mut bytes, 0, &list_of(MISSION)),
            0,
            MISSION
        )
    );
}

#[test]
fn an_upload_is_cancelled_by_its_station(rt: HostRuntime) {
    let mut state = MissionState::new();
    let mut bytes = formatted();
    let first = replies_to(&mut state, &mut bytes, 0, &count_of(2, MISSION));
    assert!(rt; is_request(&first, 0, MISSION));
    for (station, number) in [(1, MISSION), (0, FENCE), (0, 255)] {
        let none = replies_to(&mut state, &mut bytes, station, &cancel_of(number));
        assert!(rt; none.is_empty());
    }
    let next = replies_to(&mut state, &mut bytes, 0, &waypoint(0));
    assert!(rt; is_request(&next, 1, MISSION));
    let none = replies_to(&mut state, &mut bytes, 0, &cancel_of(MISSION));
    assert!(rt; none.is_empty());
    let late = replies_to(&mut state, &mut bytes, 0, &waypoint(1));
    assert!(rt; is_answer(&late, 1, MISSION));
}

#[test]
fn a_fence_of_one_circle_is_uploaded_and_downloaded(rt: HostRuntime) {
    let mut state = MissionState::new();
    let mut bytes = formatted();
    let (begun, told) = serve_one(&mut state, &mut bytes, None, 0, &count_of(1, FENCE));
    assert!(rt; begun.is_empty());
    assert!(rt; is_request(&told, 0, FENCE));
    let (lines, told) = serve_one(&mut state, &mut bytes, None, 0, &circle());
    assert_eq!(rt;
        lines.as_slice(),
        [
            LineWrite {
                line: 492,
                bytes: [0xEB, 0, 0, 0, 0x63, 0, 0, 0]
            },
            LineWrite {
                line: 493,
                bytes: [0x1C, 0x62, 0xF4, 0x17, 5, 0, 0, 0xC8]
            },
            LineWrite {
                line: 494,
                bytes: [0x42, 0x63, 0, 0, 0, 0, 0, 0]
            },
            LineWrite {
                line: 492,
                bytes: [0xEB, 0, 0, 0, 0x5C, 0x4C, 0x52, 0x40]
            },
        ]
        .as_slice()
    );
    assert!(rt; is_answer(&told, 0, FENCE));
    assert!(rt;
        is_count(
            &replies_to(&mut state, &mut bytes, 0, &list_of(FENCE)),
            1,
            FENCE
        )
    );
    let shown = replies_to(&mut state, &mut bytes, 0, &request_of(0, FENCE));
    assert_eq!(rt; shown.len(), 1);
    match shown[0].message {
        Message::MissionItemInt {
            param1,
            x,
            y,
            seq: 0,
            command: 5003,
            mission_type: FENCE,
            ..
        } => assert_eq!(rt; (param1, x, y), (0x42C8_0000, 473_977_420, 85_455_970)),
        _ => assert!(rt; false),
    }
}

#[test]
fn the_eighth_idle_turn_closes_an_upload(rt: HostRuntime) {
    let mut state = MissionState::new();
    let mut bytes = formatted();
    let first = replies_to(&mut state, &mut bytes, 0, &count_of(2, MISSION));
    assert!(rt; is_request(&first, 0, MISSION));
    for _ in 0..7 {
        let mut replies = Replies::new();
        idle(&mut state, 0, &mut replies);
        assert!(rt; is_request(&replies, 0, MISSION));
    }
    let next = replies_to(&mut state, &mut bytes, 0, &waypoint(0));
    assert!(rt; is_request(&next, 1, MISSION));
    let mut other = Replies::new();
    idle(&mut state, 1, &mut other);
    assert!(rt; other.is_empty());
    for turn in 1..=9 {
        let mut replies = Replies::new();
        idle(&mut state, 0, &mut replies);
        if turn < 8 {
            assert!(rt; is_request(&replies, 1, MISSION));
        } else if turn == 8 {
            assert!(rt; is_answer(&replies, 15, MISSION));
        } else {
            assert!(rt; replies.is_empty());
        }
    }
}

#[test]
fn lines_beyond_the_budget_are_not_issued(rt: HostRuntime) {
    let mut state = MissionState::new();
    let mut bytes = formatted();
    let (lines, told) = serve_one(&mut state, &mut bytes, Some(0), 0, &count_of(1, MISSION));
    assert!(rt; lines.is_empty());
    assert!(rt; is_answer(&told, 4, MISSION));
    let (lines, told) = serve_one(&mut state, &mut bytes, Some(1), 0, &count_of(1, MISSION));
    assert_eq!(rt; lines.len(), 1);
    assert!(rt; is_request(&told, 0, MISSION));
    let (lines, told) = serve_one(&mut state, &mut bytes, Some(3), 0, &waypoint(0));
    assert!(rt; lines.is_empty());
    assert!(rt; is_answer(&told, 4, MISSION));
    let late = replies_to(&mut state, &mut bytes, 0, &waypoint(0));
    assert!(rt; is_answer(&late, 1, MISSION));
}
