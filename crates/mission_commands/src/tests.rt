//! Worked values: a waypoint, turns to the left, an altitude between two centimetres.
use crate::*;
use word_bits::bits_of;

const WAYPOINT: Item = Item {
    param1: 0x40A0_0000,
    param2: 0,
    param3: 0,
    param4: 0,
    x: 473_977_420,
    y: 85_455_970,
    z: 0x41F3_D70A,
    seq: 0,
    command: 16,
    frame: 3,
    current: 0,
    autocontinue: 1,
};

#[test]
fn a_waypoint_is_stored(rt: HostRuntime) {
    let Ok(command) = to_command(&WAYPOINT) else {
        panic!(rt; "refused");
    };
    assert_eq!(rt; command.id, 16);
    assert_eq!(rt; command.p1, 5);
    assert_eq!(rt;
        command.content,
        [
            1, 0xE8, 0x0B, 0, 0x4C, 0x52, 0x40, 0x1C, 0x62, 0xF4, 0x17, 5
        ]
    );
    let back = to_item(&command, 7);
    assert_eq!(rt; back.param1, WAYPOINT.param1);
    assert_eq!(rt; back.z, WAYPOINT.z);
    assert_eq!(rt; back.frame, 3);
    comes_back();
    stores_fit();
    has_one_result();
}

#[test]
fn a_radius_is_stored_by_its_magnitude(rt: HostRuntime) {
    let turns = Item {
        command: 18,
        param1: bits_of(2),
        param3: bits_of(-3),
        ..WAYPOINT
    };
    let Ok(command) = to_command(&turns) else {
        panic!(rt; "refused");
    };
    assert_eq!(rt; command.p1, 770);
    assert_eq!(rt; command.content[0], 5);
    assert_eq!(rt; to_item(&command, 7).param3, bits_of(-3));
}

#[test]
fn an_altitude_is_not_cut_down(rt: HostRuntime) {
    let item = Item {
        z: 0x3C23_D70B,
        ..WAYPOINT
    };
    let Err(answer) = to_command(&item) else {
        panic!(rt; "taken");
    };
    assert_eq!(rt; answer, 12);
}
