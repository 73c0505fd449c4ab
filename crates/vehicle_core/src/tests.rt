//! What no clause says: worked turns.
ghost use Rattle.std.specs.Prelude.{◌≡◌, ◌<◌, []};

use crate::*;
use storage_lines::{STORAGE_BYTES, apply};

/// The budget of the smallest sectors.
const BUDGET: u32 = 47;

/// A station asks for the list, in a frame of this version.
fn ask(core: &mut Core, station: u8, version_two: bool)
    requires { station < STATIONS }
{
    let from = Sender {
        station,
        system: 255,
        component: 190,
    };
    let request = Message::ParamRequestList {
        target_system: 1,
        target_component: 1,
    };
    core.refresh(&[0; STORAGE_BYTES]);
    core.message(
        &[0; STORAGE_BYTES],
        BUDGET,
        from,
        version_two,
        &request,
        &mut Batch::new(),
        &mut Replies::new(),
    );
}

/// The values that a station is sent next.
fn next_values(core: &mut Core, station: u8) -> Replies
    requires { station < STATIONS }
{
    let mut replies = Replies::new();
    core.refresh(&[0; STORAGE_BYTES]);
    core.stream(&[0; STORAGE_BYTES], station, &mut replies);
    replies
}

#[test]
fn tells_the_heard_station_that_it_is_there(rt: HostRuntime) {
    let mut core = Core::new();
    ask(&mut core, 3, true);
    let mut replies = Replies::new();
    core.idle(4, &mut replies);
    assert!(rt; replies.is_empty());
    core.idle(3, &mut replies);
    assert_eq!(rt; replies.len(), 1);
    assert!(rt; matches!(replies[0].to, To::Station(3)));
    match replies[0].message {
        Message::Heartbeat {
            custom_mode,
            kind,
            autopilot,
            base_mode,
            system_status,
            mavlink_version,
        } => {
            assert_eq!(rt; (custom_mode, kind, autopilot), (0, 2, 3));
            assert_eq!(rt; (base_mode, system_status, mavlink_version), (1, 3, 3));
        }
        _ => assert!(rt; false),
    }
}

#[test]
fn keeps_two_stations_apart(rt: HostRuntime) {
    let mut core = Core::new();
    ask(&mut core, 1, false);
    ask(&mut core, 2, true);
    for (station, heard, version_two) in [(0, false, false), (1, true, false), (2, true, true)] {
        assert_eq!(rt; core.heard(station), heard, "at {station}");
        assert_eq!(rt; core.version_two(station), version_two, "at {station}");
    }
    assert_eq!(rt; next_values(&mut core, 1).len(), 8);
    assert!(rt; next_values(&mut core, 0).is_empty());
    let values = next_values(&mut core, 2);
    assert_eq!(rt; values.len(), 8);
    assert!(rt; matches!(values[0].to, To::Station(2)));
    ask(&mut core, 2, false);
    assert!(rt; !core.version_two(2));
}

#[test]
fn asks_for_the_next_item_of_an_upload_again(rt: HostRuntime) {
    let mut core = Core::new();
    let from = Sender {
        station: 5,
        system: 255,
        component: 190,
    };
    let count = Message::MissionCount {
        count: 2,
        target_system: 1,
        target_component: 1,
        mission_type: 0,
    };
    let mut batch = Batch::new();
    let mut replies = Replies::new();
    core.refresh(&[0; STORAGE_BYTES]);
    core.message(
        &[0; STORAGE_BYTES],
        BUDGET,
        from,
        true,
        &count,
        &mut batch,
        &mut replies,
    );
    assert_eq!(rt; replies.len(), 1);
    assert!(rt; !batch.is_empty());
    let mut again = Replies::new();
    core.idle(5, &mut again);
    assert_eq!(rt; again.len(), 2);
    for message in [replies[0].message, again[1].message] {
        match message {
            Message::MissionRequestInt {
                seq,
                target_system,
                target_component,
                mission_type,
            } => {
                assert_eq!(rt; (seq, mission_type), (0, 0));
                assert_eq!(rt; (target_system, target_component), (255, 190));
            }
            _ => assert!(rt; false),
        }
    }
}

/// COMMAND_LONG of station 5 with this first parameter.
fn command(core: &mut Core, number: u16, param1: u32, replies: &mut Replies) -> Need
    requires { replies.old.items ≡ [] }
{
    let from = Sender {
        station: 5,
        system: 255,
        component: 190,
    };
    let order = Message::CommandLong {
        param1,
        param2: 0,
        param3: 0,
        param4: 0,
        param5: 0,
        param6: 0,
        param7: 0,
        command: number,
        target_system: 1,
        target_component: 1,
        confirmation: 0,
    };
    core.refresh(&[0; STORAGE_BYTES]);
    core.message(
        &[0; STORAGE_BYTES],
        BUDGET,
        from,
        true,
        &order,
        &mut Batch::new(),
        replies,
    )
}

#[test]
fn answers_commands(rt: HostRuntime) {
    let mut core = Core::new();
    for (number, param1, result, armed) in [
        (245, 0x3F80_0000, 0, false),
        (245, 0, 2, false),
        (400, 0x3F80_0000, 0, true),
        (400, 0x4000_0000, 2, true),
        (246, 0x3F80_0000, 3, true),
        (400, 0x8000_0000, 0, false),
        (400, 0x3F80_0000, 0, true),
        (400, 0, 0, false),
    ] {
        let mut replies = Replies::new();
        let need = command(&mut core, number, param1, &mut replies);
        assert_eq!(rt; need == Need::FlushAll, result == 0, "at {number} {param1}");
        assert_eq!(rt; core.armed(), armed, "at {number} {param1}");
        assert_eq!(rt; replies.len(), 1);
        assert!(rt; matches!(replies[0].to, To::Station(5)));
        match replies[0].message {
            Message::CommandAck {
                command,
                result: answer,
                progress,
                result_param2,
                target_system,
                target_component,
            } => {
                assert_eq!(rt; (command, answer), (number, result), "at {number} {param1}");
                assert_eq!(rt; (progress, result_param2), (0, 0));
                assert_eq!(rt; (target_system, target_component), (255, 190));
            }
            _ => assert!(rt; false),
        }
    }
}

#[test]
fn tells_that_it_is_armed(rt: HostRuntime) {
    let mut core = Core::new();
    command(&mut core, 400, 0x3F80_0000, &mut Replies::new());
    let mut replies = Replies::new();
    core.idle(5, &mut replies);
    assert_eq!(rt; replies.len(), 1);
    match replies[0].message {
        Message::Heartbeat {
            base_mode,
            system_status,
            ..
        } => assert_eq!(rt; (base_mode, system_status), (129, 4)),
        _ => assert!(rt; false),
    }
}

/// PARAM_SET of FS_THR_ENABLE by station 5, applied to the storage: the pattern that is shown.
fn set_failsafe(core: &mut Core, bytes: &mut [u8; STORAGE_BYTES], bits: u32) -> Option<u32> {
    let from = Sender {
        station: 5,
        system: 255,
        component: 190,
    };
    let set = Message::ParamSet {
        param_value: bits,
        target_system: 1,
        target_component: 1,
        param_id: *b"FS_THR_ENABLE\0\0\0",
        param_type: 2,
    };
    let mut batch = Batch::new();
    let mut replies = Replies::new();
    core.refresh(bytes);
    core.message(bytes, BUDGET, from, true, &set, &mut batch, &mut replies);
    for write in batch.as_slice() {
        apply(write, bytes);
    }
    match replies.first().copied()?.message {
        Message::ParamValue { param_value, .. } => Some(param_value),
        _ => None,
    }
}

#[test]
fn shows_the_old_value_once_the_budget_is_spent(rt: HostRuntime) {
    let mut core = Core::new();
    // The storage is formatted, and FS_THR_ENABLE is 0.
    let mut bytes = [0; STORAGE_BYTES];
    bytes[..8].copy_from_slice(&[0x50, 0x41, 6, 0, 0x14, 0x42, 0, 0]);
    bytes[8..16].copy_from_slice(&[0, 0, 3, 1, 0, 0, 0, 0xFF]);
    bytes[16..24].copy_from_slice(&[0xFF, 0x3F, 0, 0, 0, 0, 0, 0]);
    command(&mut core, 400, 0x3F80_0000, &mut Replies::new());
    for change in 1..=47u32 {
        let bits = if change % 2 == 1 { 0x3F80_0000 } else { 0 };
        assert_eq!(rt;
            set_failsafe(&mut core, &mut bytes, bits),
            Some(bits),
            "at {change}"
        );
    }
    // Arming again doesn't set the count back, and disarming does.
    command(&mut core, 400, 0x3F80_0000, &mut Replies::new());
    assert_eq!(rt; set_failsafe(&mut core, &mut bytes, 0), Some(0x3F80_0000));
    command(&mut core, 400, 0, &mut Replies::new());
    assert_eq!(rt; set_failsafe(&mut core, &mut bytes, 0), Some(0));
}
