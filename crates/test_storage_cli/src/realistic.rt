//! A session as a ground station has it: all parameters are listed, a mission and a fence are
//! uploaded and downloaded again, and all is stored.
ghost use Rattle.std.specs.Prelude.{IsTrue};
ghost use Rattle.flash_board.specs.Kept.{peers_fit};

use crate::commands::fresh_image;
use arrayvec::ArrayVec;
use flash_board::{Feed, SureBoard, SureSink, SureSource};
use mav_frames::{message, whole_frame, write_frame};
use mav_messages::Message;
use std::alloc::Global;
use std::test::Fail;
use storage_cli::{Status, run};

// What is uploaded and downloaded: forty waypoints, and a polygon of twelve vertices.
#[derive(Clone, Copy)]
enum Kind {
    Mission,
    Fence,
}

impl Kind {
    fn number(self) -> u8 {
        match self {
            Kind::Mission => 0,
            Kind::Fence => 1,
        }
    }

    fn count(self) -> u16 {
        match self {
            Kind::Mission => 40,
            Kind::Fence => 12,
        }
    }

    // The item with this number. A vertex has the polygon's count, 12, as param1.
    fn item(self, seq: u16) -> Message {
        let (command, frame, param1, z) = match self {
            Kind::Mission => (16, 3, 0x40A0_0000, 0x41F3_D70A),
            Kind::Fence => (5001, 0, 0x4140_0000, 0),
        };
        Message::MissionItemInt {
            param1,
            param2: 0,
            param3: 0,
            param4: 0,
            x: 473_977_420 + seq as i32,
            y: 85_455_970,
            z,
            seq,
            command,
            target_system: 1,
            target_component: 1,
            frame,
            current: 0,
            autocontinue: 1,
            mission_type: self.number(),
        }
    }
}

// The events of a session.
#[derive(Drop)]
struct Events {
    feed: Vec<Feed>,
    ghost fit: { IsTrue (peers_fit feed.items) },
}

impl Events {
    // An idle turn.
    #[tactic(auto, using(crate::proofs::Feeds::peers_fit_append))]
    fn wait(&mut self) -> Result<(), Fail> {
        self.feed.push(Feed::Idle)?;
        Ok(())
    }

    fn wait_often(&mut self, turns: usize) -> Result<(), Fail> {
        for _ in 0..turns {
            self.wait()?;
        }
        Ok(())
    }

    // A message to the vehicle, as one datagram of station 0.
    #[tactic(auto, using(crate::proofs::Feeds::peers_fit_append))]
    fn say(&mut self, message: &Message) -> Result<(), Fail> {
        let frame = write_frame(message, true, 255, 190, 0);
        let Ok(bytes) = ArrayVec::try_from(frame.as_slice()) else {
            return Err(Fail::from("datagram"));
        };
        self.feed.push(Feed::Datagram { peer: 0, bytes })?;
        Ok(())
    }

    fn upload(&mut self, kind: Kind) -> Result<(), Fail> {
        self.say(&Message::MissionCount {
            count: kind.count(),
            target_system: 1,
            target_component: 1,
            mission_type: kind.number(),
        })?;
        for seq in 0..kind.count() {
            self.say(&kind.item(seq))?;
        }
        Ok(())
    }

    fn download(&mut self, kind: Kind) -> Result<(), Fail> {
        self.say(&Message::MissionRequestList {
            target_system: 1,
            target_component: 1,
            mission_type: kind.number(),
        })?;
        for seq in 0..kind.count() {
            self.say(&Message::MissionRequestInt {
                seq,
                target_system: 1,
                target_component: 1,
                mission_type: kind.number(),
            })?;
        }
        Ok(())
    }
}

// Three idle turns, a list over thirty events, a mission and a fence there and back, and an order
// to store all.
fn session(alloc: Global) -> Result<Events, Fail> {
    let mut events = Events {
        feed: Vec::new(alloc),
    };
    events.wait_often(3)?;
    events.say(&Message::ParamRequestList {
        target_system: 1,
        target_component: 1,
    })?;
    events.wait_often(29)?;
    events.upload(Kind::Mission)?;
    events.upload(Kind::Fence)?;
    events.download(Kind::Mission)?;
    events.download(Kind::Fence)?;
    events.say(&Message::CommandLong {
        param1: 0x3F80_0000,
        param2: 0,
        param3: 0,
        param4: 0,
        param5: 0,
        param6: 0,
        param7: 0,
        command: 245,
        target_system: 1,
        target_component: 1,
        confirmation: 0,
    })?;
    Ok(events)
}

// The messages that station 0 was sent.
fn messages_sent(alloc: Global, board: &SureBoard) -> Result<Vec<Message>, Fail> {
    let mut messages = Vec::new(alloc);
    for number in 0..4_096 {
        let Some((station, bytes)) = board.sent(number) else {
            return Ok(messages);
        };
        let found = match whole_frame(bytes.as_slice()) {
            Some(frame) if station == 0 => message(&frame),
            _ => None,
        };
        match found {
            Some(message) => messages.push(message)?,
            None => return Err(Fail::from("no right frame for station 0")),
        }
    }
    Err(Fail::from("too many frames"))
}

// The index of a parameter that is shown.
fn index_of(message: &Message) -> Option<u16> {
    match message {
        Message::ParamValue { param_index, .. } => Some(*param_index),
        _ => None,
    }
}

// What of an item is stored, its number, and of what it is an item.
#[derive(Clone, Copy, Debug, PartialEq, Eq)]
struct Stored {
    param1: u32,
    x: i32,
    y: i32,
    z: u32,
    seq: u16,
    command: u16,
    frame: u8,
    mission_type: u8,
}

fn stored_of(message: &Message) -> Option<Stored> {
    match message {
        Message::MissionItemInt {
            param1,
            x,
            y,
            z,
            seq,
            command,
            frame,
            mission_type,
            ..
        } => Some(Stored {
            param1: *param1,
            x: *x,
            y: *y,
            z: *z,
            seq: *seq,
            command: *command,
            frame: *frame,
            mission_type: *mission_type,
        }),
        _ => None,
    }
}

// The rows are shown in order, each once. How many are there?
fn rows_in(messages: &[Message]) -> Result<u16, Fail> {
    let mut rows = 0;
    for message in messages {
        match index_of(message) {
            None => {}
            Some(index) if index == rows => rows = rows.saturating_add(1),
            Some(_) => return Err(Fail::from("another row")),
        }
    }
    Ok(rows)
}

// The items among these messages.
fn items_in(alloc: Global, messages: &[Message]) -> Result<Vec<Stored>, Fail> {
    let mut items = Vec::new(alloc);
    for message in messages {
        if let Some(item) = stored_of(message) {
            items.push(item)?;
        }
    }
    Ok(items)
}

// All items that are uploaded.
fn uploaded(alloc: Global) -> Result<Vec<Stored>, Fail> {
    let mut items = Vec::new(alloc);
    for kind in [Kind::Mission, Kind::Fence] {
        for seq in 0..kind.count() {
            if let Some(item) = stored_of(&kind.item(seq)) {
                items.push(item)?;
            }
        }
    }
    Ok(items)
}

#[test]
fn a_realistic_session_is_served_to_its_end(rt: HostRuntime) -> Result<(), Fail> {
    let alloc = rt.alloc();
    let image = fresh_image(alloc)?;
    let events = session(alloc)?;
    let mut board = SureBoard::new(alloc, &image, &events.feed)?;
    let mut input = SureSource::new(alloc, &[])?;
    let mut out = SureSink::new(alloc, 100)?;
    let status = run(alloc, &["serve", "a"], &mut board, &mut input, &mut out);
    assert_eq!(rt; status, Status(0));
    // a heartbeat at each of 29 idle turns, 240 values, and an answer to each of 109 messages
    assert_eq!(rt; out.bytes(), b"served 142 events 378 frames\n".as_slice());
    let messages = messages_sent(alloc, &board)?;
    assert_eq!(rt; rows_in(&messages)?, 240);
    assert_eq!(rt;
        items_in(alloc, &messages)?.as_slice(),
        uploaded(alloc)?.as_slice()
    );
    assert!(rt;
        matches!(
            messages.last().copied(),
            Some(Message::CommandAck {
                command: 245,
                result: 0,
                ..
            })
        )
    );
    Ok(())
}
