//! Sessions of frames with each call failing in turn: what is left, and what was sent.
ghost use Rattle.std.specs.Prelude.{◌≡◌, ◌<◌, ◌∷◌, [], IfOk, OnOk, IsTrue};
ghost use Rattle.flash_board.specs.Kept.{peers_fit};

use arrayvec::ArrayVec;
use byteorder::{ByteOrder, LittleEndian};
use flash_board::{Board, DATAGRAM_BYTES, Fault, Feed, MemBoard, SureBoard};
use mav_frames::{message, whole_frame, write_frame};
use mav_messages::Message;
use std::alloc::Global;
use std::test::Fail;
use vehicle_node::{Node, NodeError};

mod arming;
mod boot;
mod noise;
mod prefixes;
mod uploads;

// A formatted image of 16,384-byte sectors: sector 0 in use, sector 1 available.
fn formatted_image(alloc: Global) -> Result<Vec<u8>, Fail> {
    let mut image = vec![in alloc; 0xFF; 49_152]?;
    LittleEndian::write_u16_into(&[0x5BFE, 0x5168], &mut image[..4]);
    LittleEndian::write_u16_into(&[0x5BFF, 0x5168], &mut image[16_384..16_388]);
    Ok(image)
}

// One more item of a feed.
#[tactic(auto, using(crate::proofs::Feeds::peers_fit_append))]
fn append(feed: &mut Vec<Feed>, item: Feed) -> Result<(), Fail>
    requires fit { IsTrue (peers_fit feed.old.items) }
    requires fits { IsTrue (peers_fit (item ∷ [])) }
    ensures { OnOk result (IsTrue (peers_fit feed.new.items)) }
{
    match feed.push(item) {
        Ok(()) => Ok(()),
        Err(_) => Err(Fail::from("append")),
    }
}

// A datagram of these bytes from a station.
fn datagram(station: u8, bytes: &[u8]) -> Result<Feed, Fail>
    requires { station < 8 }
    ensures { IfOk result (λ item. IsTrue (peers_fit (item ∷ []))) }
{
    match ArrayVec::try_from(bytes) {
        Ok(bytes) => Ok(Feed::Datagram {
            peer: station,
            bytes,
        }),
        Err(_) => Err(Fail::from("datagram")),
    }
}

// A message to the vehicle from station 0, as one datagram.
fn asked(message: &Message) -> Result<Feed, Fail>
    ensures { IfOk result (λ item. IsTrue (peers_fit (item ∷ []))) }
{
    datagram(0, write_frame(message, true, 255, 190, 0).as_slice())
}

// Idle turns after a feed.
fn append_idle(feed: &mut Vec<Feed>, turns: usize) -> Result<(), Fail>
    requires { IsTrue (peers_fit feed.old.items) }
    ensures { OnOk result (IsTrue (peers_fit feed.new.items)) }
{
    'turns: for _ in 0..turns {
        append(feed, Feed::Idle)?;
    }
    Ok(())
}

fn attach<B: Board>(board: &mut B) -> Result<(), NodeError>
    ensures { OnOk result (B.sector_bytes board.new ≡ 16384) }
{
    match board.attach("image", 0, None) {
        Ok(geometry) if geometry.sector_bytes == 16_384 => Ok(()),
        _ => Err(NodeError::Fault(Fault::Attach)),
    }
}

// A node is opened over an image of 16,384-byte sectors, and takes so many events.
fn session<B: Board>(alloc: Global, board: &mut B, events: usize) -> Result<(), NodeError> {
    attach(board)?;
    let mut node = Node::open(alloc, board)?;
    let mut buffer = [0; DATAGRAM_BYTES];
    'events: for _ in 0..events {
        node.event(board, &mut buffer)?;
    }
    Ok(())
}

// A session that no call stops, over an image of 16,384-byte sectors.
fn served(alloc: Global, image: &[u8], feed: &[Feed]) -> Result<SureBoard, Fail>
    requires { IsTrue (peers_fit feed.now) }
{
    if image.len() != 49_152 {
        return Err(Fail::from("image"));
    }
    let mut board = SureBoard::new(alloc, image, feed)?;
    match session(alloc, &mut board, feed.len()) {
        Ok(()) => Ok(board),
        Err(_) => Err(Fail::from("session")),
    }
}

// The message of the frame with this number, and the station that it was sent to.
fn message_sent(board: &SureBoard, number: u32) -> Option<(u8, Message)> {
    let (station, bytes) = board.sent(number)?;
    let frame = whole_frame(bytes.as_slice())?;
    Some((station, message(&frame)?))
}

// The index and the value of the PARAM_VALUE with this number that went to station 0.
fn value_sent(board: &SureBoard, number: u32) -> Option<(u16, u32)> {
    match message_sent(board, number)? {
        (
            0,
            Message::ParamValue {
                param_value,
                param_index,
                ..
            },
        ) => Some((param_index, param_value)),
        _ => None,
    }
}

const GYRO_FILTER: [u8; 16] = *b"INS_GYRO_FILTER\0";

const GYRO_FILTER_INDEX: u16 = 42;

const RADIUS: [u8; 16] = *b"FENCE_RADIUS\0\0\0\0";

const RADIUS_INDEX: u16 = 12;

fn set(param_id: [u8; 16], param_value: u32, param_type: u8) -> Result<Feed, Fail>
    ensures { IfOk result (λ item. IsTrue (peers_fit (item ∷ []))) }
{
    asked(&Message::ParamSet {
        param_value,
        target_system: 1,
        target_component: 1,
        param_id,
        param_type,
    })
}

// The filter is set to 30, the radius to 100 metres, the filter to 31, and then there are two idle
// turns.
fn three_sets(alloc: Global) -> Result<Vec<Feed>, Fail>
    ensures { IfOk result (λ feed. IsTrue (peers_fit feed.items)) }
{
    let mut feed = Vec::new(alloc);
    append(&mut feed, set(GYRO_FILTER, 0x41F0_0000, 4)?)?;
    append(&mut feed, set(RADIUS, 0x42C8_0000, 9)?)?;
    append(&mut feed, set(GYRO_FILTER, 0x41F8_0000, 4)?)?;
    append_idle(&mut feed, 2)?;
    Ok(feed)
}

// The filter and the radius after each prefix of the sets. The defaults are 20 and 300 metres.
const AFTER_SETS: [(u32, u32); 4] = [
    (0x41A0_0000, 0x4396_0000),
    (0x41F0_0000, 0x4396_0000),
    (0x41F0_0000, 0x42C8_0000),
    (0x41F8_0000, 0x42C8_0000),
];

// Where the call with this number fails: which kind of call stopped the session, where one did, and
// the image that it left.
fn cut_session(
    alloc: Global,
    image: &[u8],
    feed: &[Feed],
    lost: u32,
) -> Result<(Option<Fault>, Vec<u8>), Fail>
    requires { IsTrue (peers_fit feed.now) }
{
    let mut board = MemBoard::new(alloc, image, feed, &[lost])?;
    let stopped = match session(alloc, &mut board, feed.len()) {
        Ok(()) => None,
        Err(NodeError::Fault(kind)) => Some(kind),
        Err(_) => return Err(Fail::from("session")),
    };
    Ok((stopped, board.image(alloc)?))
}

fn read(param_index: i16) -> Result<Feed, Fail>
    ensures { IfOk result (λ item. IsTrue (peers_fit (item ∷ []))) }
{
    asked(&Message::ParamRequestRead {
        param_index,
        target_system: 1,
        target_component: 1,
        param_id: [0; 16],
    })
}

// How many of the sets an image has, by the filter and the radius that are served from it.
fn sets_left(alloc: Global, image: &[u8]) -> Result<usize, Fail> {
    let mut feed = Vec::new(alloc);
    append(&mut feed, read(42)?)?;
    append(&mut feed, read(12)?)?;
    let board = served(alloc, image, &feed)?;
    let (Some((GYRO_FILTER_INDEX, filter)), Some((RADIUS_INDEX, radius))) = (
        value_sent(&board, 0),
        value_sent(&board, 1),
    ) else {
        return Err(Fail::from("values"));
    };
    match AFTER_SETS.iter().position(|pair| *pair == (filter, radius)) {
        Some(sets) => Ok(sets),
        None => Err(Fail::from("neither before nor after a set")),
    }
}

// The calls before the first program: the attach, and the reads of the guard row, the heads and
// both sectors.
const FIRST_PROGRAM: u32 = 1 + 8193 + 4 + 8193 + 8192;

#[test]
fn each_failing_call_leaves_a_prefix(rt: HostRuntime) -> Result<(), Fail> {
    let alloc = rt.alloc();
    let image = formatted_image(alloc)?;
    let feed = three_sets(alloc)?;
    let (last_read, _) = cut_session(alloc, &image, &feed, FIRST_PROGRAM - 1)?;
    assert_eq!(rt; last_read, Some(Fault::Read));
    let (first_program, _) = cut_session(alloc, &image, &feed, FIRST_PROGRAM)?;
    assert_eq!(rt; first_program, Some(Fault::Flash));
    let mut sets = 0;
    for lost in FIRST_PROGRAM..FIRST_PROGRAM + 200 {
        let (stopped, left) = cut_session(alloc, &image, &feed, lost)?;
        let before = sets;
        sets = sets_left(alloc, &left)?;
        // one call more leaves one set more, or none
        assert!(rt;
            sets == before || sets == before.saturating_add(1),
            "call {lost}"
        );
        if stopped.is_none() {
            assert_eq!(rt; sets, 3);
            return Ok(());
        }
    }
    Err(Fail::from("no session was whole"))
}

// The index of the value with this number in a list that idle turns go on with, each after a
// heartbeat. None for a heartbeat.
fn listed(number: u32) -> Option<u16>
    requires { number < 270 }
{
    if number < 8 {
        return Some(number as u16);
    }
    let turn = (number - 8) / 9;
    let place = (number - 8) % 9;
    if place == 0 {
        None
    } else {
        Some((8 * turn + 7 + place) as u16)
    }
}

#[test]
fn a_list_is_240_values_over_30_events(rt: HostRuntime) -> Result<(), Fail> {
    let alloc = rt.alloc();
    let image = formatted_image(alloc)?;
    let mut feed = Vec::new(alloc);
    let request = Message::ParamRequestList {
        target_system: 1,
        target_component: 1,
    };
    append(&mut feed, asked(&request)?)?;
    append_idle(&mut feed, 30)?;
    let board = served(alloc, &image, &feed)?;
    for number in 0..270 {
        match listed(number) {
            Some(index) => {
                let found = value_sent(&board, number).map(|(found, _)| found);
                assert_eq!(rt; found, Some(index), "frame {number}");
            }
            None => {
                let found = message_sent(&board, number);
                assert!(rt;
                    matches!(found, Some((0, Message::Heartbeat { .. }))),
                    "frame {number}"
                );
            }
        }
    }
    assert!(rt; board.sent(270).is_none());
    Ok(())
}

// PARAM_REQUEST_READ of index 0 as version 1, and its answer: FORMAT_VERSION, 120.
const REQUEST_V1: [u8; 28] = [
    0xFE, 0x14, 0x00, 0xFF, 0xBE, 0x14, 0x00, 0x00, 0x01, 0x01, 0x00, 0x00, 0x00, 0x00, 0x00, 0x00,
    0x00, 0x00, 0x00, 0x00, 0x00, 0x00, 0x00, 0x00, 0x00, 0x00, 0xE7, 0xF2,
];

const VALUE_V1: [u8; 33] = [
    0xFE, 0x19, 0x00, 0x01, 0x01, 0x16, 0x00, 0x00, 0xF0, 0x42, 0xF0, 0x00, 0x00, 0x00, 0x46, 0x4F,
    0x52, 0x4D, 0x41, 0x54, 0x5F, 0x56, 0x45, 0x52, 0x53, 0x49, 0x4F, 0x4E, 0x00, 0x00, 0x04, 0x55,
    0x99,
];

// PARAM_REQUEST_READ of the name FENCE_RADIUS as version 2, and its answer: 300 metres.
const REQUEST_V2: [u8; 28] = [
    0xFD, 0x10, 0x00, 0x00, 0x00, 0xFE, 0xBE, 0x14, 0x00, 0x00, 0xFF, 0xFF, 0x01, 0x01, 0x46, 0x45,
    0x4E, 0x43, 0x45, 0x5F, 0x52, 0x41, 0x44, 0x49, 0x55, 0x53, 0x44, 0x9D,
];

const VALUE_V2: [u8; 37] = [
    0xFD, 0x19, 0x00, 0x00, 0x00, 0x01, 0x01, 0x16, 0x00, 0x00, 0x00, 0x00, 0x96, 0x43, 0xF0, 0x00,
    0x0C, 0x00, 0x46, 0x45, 0x4E, 0x43, 0x45, 0x5F, 0x52, 0x41, 0x44, 0x49, 0x55, 0x53, 0x00, 0x00,
    0x00, 0x00, 0x09, 0x41, 0x6A,
];

// The two requests byte by byte in turn, from the stations 2 and 5.
fn in_turn(alloc: Global) -> Result<Vec<Feed>, Fail>
    ensures { IfOk result (λ feed. IsTrue (peers_fit feed.items)) }
{
    let mut feed = Vec::new(alloc);
    'places: for place in 0..28 {
        append(&mut feed, datagram(2, &[REQUEST_V1[place]])?)?;
        append(&mut feed, datagram(5, &[REQUEST_V2[place]])?)?;
    }
    Ok(feed)
}

#[test]
fn two_stations_in_datagrams_of_one_byte(rt: HostRuntime) -> Result<(), Fail> {
    let alloc = rt.alloc();
    let image = formatted_image(alloc)?;
    let feed = in_turn(alloc)?;
    let board = served(alloc, &image, &feed)?;
    let (Some((first, v1)), Some((second, v2))) = (board.sent(0), board.sent(1)) else {
        return Err(Fail::from("sent"));
    };
    assert_eq!(rt; (first, second), (2, 5));
    assert_eq!(rt; v1.as_slice(), VALUE_V1.as_slice());
    assert_eq!(rt; v2.as_slice(), VALUE_V2.as_slice());
    assert!(rt; board.sent(2).is_none());
    Ok(())
}
