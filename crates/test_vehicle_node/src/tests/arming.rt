//! Orders: what was flushed before a storage acknowledgement is kept, and an armed vehicle erases
//! nothing and issues as many lines as its budget has.
ghost use Rattle.std.specs.Prelude.{◌∷◌, [], IfOk, IsTrue};
ghost use Rattle.flash_board.specs.Kept.{peers_fit};

use super::uploads::{Kind, begin};
use super::*;

/// MAV_CMD_PREFLIGHT_STORAGE and MAV_CMD_COMPONENT_ARM_DISARM.
const STORAGE: u16 = 245;

const ARMING: u16 = 400;

/// The binary32 patterns of 1 and of minus 0.
const ONE: u32 = 0x3F80_0000;

const MINUS_ZERO: u32 = 0x8000_0000;

// COMMAND_LONG to the vehicle.
fn order(command: u16, param1: u32) -> Message {
    Message::CommandLong {
        param1,
        param2: 0,
        param3: 0,
        param4: 0,
        param5: 0,
        param6: 0,
        param7: 0,
        command,
        target_system: 1,
        target_component: 1,
        confirmation: 0,
    }
}

// The filter is set to 30 and all lines are flushed, in one datagram: the order comes while the
// lines of the set are pending.
fn set_and_flush(alloc: Global) -> Result<Feed, Fail>
    ensures { IfOk result (λ item. IsTrue (peers_fit (item ∷ []))) }
{
    let set = Message::ParamSet {
        param_value: 0x41F0_0000,
        target_system: 1,
        target_component: 1,
        param_id: GYRO_FILTER,
        param_type: 4,
    };
    let mut bytes = Vec::new(alloc);
    bytes.extend_from_slice(write_frame(&set, true, 255, 190, 0).as_slice())?;
    bytes.extend_from_slice(write_frame(&order(STORAGE, ONE), true, 255, 190, 1).as_slice())?;
    datagram(0, &bytes)
}

// The second frame that was sent acknowledges the flush.
fn is_acknowledged(board: &MemBoard) -> bool {
    let Some((0, bytes)) = board.sent(1) else {
        return false;
    };
    let Some(frame) = whole_frame(bytes.as_slice()) else {
        return false;
    };
    matches!(
        message(&frame),
        Some(Message::CommandAck {
            command: STORAGE,
            result: 0,
            ..
        })
    )
}

#[test]
fn what_was_flushed_before_an_acknowledgement_is_kept(rt: HostRuntime) -> Result<(), Fail> {
    let alloc = rt.alloc();
    let image = formatted_image(alloc)?;
    let mut feed = Vec::new(alloc);
    append(&mut feed, set_and_flush(alloc)?)?;
    append_idle(&mut feed, 1)?;
    let mut acknowledged = false;
    for lost in FIRST_PROGRAM..FIRST_PROGRAM + 200 {
        let mut board = MemBoard::new(alloc, &image, &feed, &[lost])?;
        let whole = session(alloc, &mut board, feed.len()).is_ok();
        let sets = sets_left(alloc, &board.image(alloc)?)?;
        // a loss before the acknowledgement leaves the set or not, one after it leaves the set
        assert!(rt; sets <= 1, "call {lost}");
        if is_acknowledged(&board) {
            assert_eq!(rt; sets, 1, "call {lost}");
            acknowledged = true;
        }
        assert!(rt; acknowledged == is_acknowledged(&board), "call {lost}");
        if whole {
            assert!(rt; acknowledged);
            return Ok(());
        }
    }
    Err(Fail::from("no session was whole"))
}

// The filter is set to 30 and 31 in turn, so many times.
fn sets_in_turn(alloc: Global, count: usize) -> Result<Vec<Feed>, Fail>
    ensures { IfOk result (λ feed. IsTrue (peers_fit feed.items)) }
{
    let mut feed = Vec::new(alloc);
    'sets: for n in 0..count {
        let value = if n % 2 == 0 { 0x41F0_0000 } else { 0x41F8_0000 };
        append(&mut feed, set(GYRO_FILTER, value, 4)?)?;
    }
    Ok(feed)
}

// Whether the guard row counts a sector that was voided.
fn has_voided(image: &[u8]) -> bool {
    image.get(32_768) == Some(&0)
}

// How many such sets home takes.
fn most_sets(alloc: Global, image: &[u8]) -> Result<usize, Fail> {
    let mut sets: usize = 0;
    for step in [1024usize, 512, 256, 128, 64, 32, 16, 8, 4, 2, 1] {
        let more = sets.saturating_add(step);
        let board = served(alloc, image, &sets_in_turn(alloc, more)?)?;
        if !has_voided(&board.image(alloc)?) {
            sets = more;
        }
    }
    Ok(sets)
}

#[test]
fn an_armed_vehicle_goes_on_in_the_other_sector(rt: HostRuntime) -> Result<(), Fail> {
    let alloc = rt.alloc();
    let image = formatted_image(alloc)?;
    let most = most_sets(alloc, &image)?;
    let mut feed = sets_in_turn(alloc, most)?;
    append(&mut feed, asked(&order(ARMING, ONE))?)?;
    append(&mut feed, set(GYRO_FILTER, 0x4200_0000, 4)?)?;
    let armed = served(alloc, &image, &feed)?.image(alloc)?;
    // home is full and marked so, the other sector is in use, and nothing is voided
    assert_eq!(rt; armed.get(..2), Some([0xFC, 0x5B].as_slice()));
    assert_eq!(rt; armed.get(16_384..16_386), Some([0xFE, 0x5B].as_slice()));
    assert!(rt; !has_voided(&armed));
    // disarming makes the other sector home
    append(&mut feed, asked(&order(ARMING, 0))?)?;
    let disarmed = served(alloc, &image, &feed)?.image(alloc)?;
    assert!(rt; has_voided(&disarmed));
    assert_eq!(rt; disarmed.get(16_384..16_386), Some([0xFE, 0x5B].as_slice()));
    Ok(())
}

// What the station is told of a set, an order or an upload.
#[derive(Clone, Copy, Debug, PartialEq, Eq)]
enum Told {
    /// The index of a row, and its value.
    Value(u16, u32),
    /// A command, and its result.
    Result(u16, u8),
    /// The number of the item that is asked for.
    Next(u16),
    /// The answer to an upload.
    Answer(u8),
}

// What the frame with this number tells station 0.
fn told_by(board: &SureBoard, number: u32) -> Option<Told> {
    match message_sent(board, number)? {
        (
            0,
            Message::ParamValue {
                param_value,
                param_index,
                ..
            },
        ) => Some(Told::Value(param_index, param_value)),
        (
            0,
            Message::CommandAck {
                command,
                result: answer,
                ..
            },
        ) => Some(Told::Result(command, answer)),
        (0, Message::MissionRequestInt { seq, .. }) => Some(Told::Next(seq)),
        (0, Message::MissionAck { kind, .. }) => Some(Told::Answer(kind)),
        _ => None,
    }
}

// Messages of the station, and what it is told of each.
#[derive(Drop)]
struct Story {
    feed: Vec<Feed>,
    told: Vec<Told>,
    /// The filter's value.
    filter: u32,
    ghost fit: { IsTrue (peers_fit feed.items) },
}

impl Story {
    // A message, and what is told of it.
    #[tactic(auto, using(crate::proofs::Feeds::peers_fit_append))]
    fn say(&mut self, message: &Message, told: Told) -> Result<(), Fail> {
        let event = asked(message)?;
        self.feed.push(event)?;
        self.told.push(told)?;
        Ok(())
    }

    fn order(&mut self, command: u16, param1: u32, answer: u8) -> Result<(), Fail> {
        self.say(&order(command, param1), Told::Result(command, answer))
    }

    // The filter is set from 30 to 31 or back, which takes one line.
    fn set_filter(&mut self, is_taken: bool) -> Result<(), Fail> {
        let other = if self.filter == 0x41F0_0000 {
            0x41F8_0000
        } else {
            0x41F0_0000
        };
        if is_taken {
            self.filter = other;
        }
        let shown = self.filter;
        self.say(
            &Message::ParamSet {
                param_value: other,
                target_system: 1,
                target_component: 1,
                param_id: GYRO_FILTER,
                param_type: 4,
            },
            Told::Value(GYRO_FILTER_INDEX, shown),
        )
    }

    fn set_filter_often(&mut self, count: usize) -> Result<(), Fail> {
        for _ in 0..count {
            self.set_filter(true)?;
        }
        Ok(())
    }

    // The radius is set to 100 metres for the first time. It takes three lines: those of the
    // sentinel, of the value and of the header.
    fn set_radius(&mut self, is_taken: bool) -> Result<(), Fail> {
        let shown = if is_taken { 0x42C8_0000 } else { 0x4396_0000 };
        self.say(
            &Message::ParamSet {
                param_value: 0x42C8_0000,
                target_system: 1,
                target_component: 1,
                param_id: RADIUS,
                param_type: 9,
            },
            Told::Value(RADIUS_INDEX, shown),
        )
    }

    // The first upload of a mission begins. It takes one line: that of the version.
    fn begin_mission(&mut self, is_taken: bool) -> Result<(), Fail> {
        let told = if is_taken {
            Told::Next(0)
        } else {
            Told::Answer(4)
        };
        self.say(&begin(Kind::Mission, 1), told)
    }
}

// What is asked of an armed vehicle after some sets of one line, and before some others.
#[derive(Clone, Copy)]
enum Change {
    Radius,
    Mission,
}

// Sectors of 16,384 bytes have a budget of 47 lines. With these lines, and those of what is asked
// for, it is reached exactly.
const BUDGETS: [(usize, Change, bool, usize); 4] = [
    (44, Change::Radius, true, 0),
    (45, Change::Radius, false, 2),
    (46, Change::Mission, true, 0),
    (47, Change::Mission, false, 0),
];

// The vehicle is armed, and issues as many lines as its budget has.
fn spend(
    alloc: Global,
    before: usize,
    change: Change,
    is_taken: bool,
    after: usize,
) -> Result<Story, Fail> {
    let mut story = Story {
        feed: Vec::new(alloc),
        told: Vec::new(alloc),
        filter: 0,
    };
    story.set_filter(true)?;
    story.order(ARMING, ONE, 0)?;
    story.set_filter_often(before)?;
    match change {
        Change::Radius => story.set_radius(is_taken)?,
        Change::Mission => story.begin_mission(is_taken)?,
    }
    story.set_filter_often(after)?;
    story.set_filter(false)?;
    Ok(story)
}

#[test]
fn an_armed_vehicle_issues_as_many_lines_as_its_budget(rt: HostRuntime) -> Result<(), Fail> {
    let alloc = rt.alloc();
    let image = formatted_image(alloc)?;
    for (before, change, is_taken, after) in BUDGETS {
        let mut story = spend(alloc, before, change, is_taken, after)?;
        // none of these sets the count back
        for (command, param1, answer) in [
            (ARMING, ONE, 0),
            (STORAGE, ONE, 0),
            (STORAGE, 0, 2),
            (ARMING, 0x4000_0000, 2),
            (246, ONE, 3),
        ] {
            story.order(command, param1, answer)?;
            story.set_filter(false)?;
        }
        story.order(ARMING, MINUS_ZERO, 0)?;
        story.set_filter(true)?;
        // and this does
        story.order(ARMING, ONE, 0)?;
        story.set_filter_often(47)?;
        story.set_filter(false)?;
        let board = served(alloc, &image, &story.feed)?;
        let mut number = 0u32;
        for expected in story.told.iter() {
            assert_eq!(rt;
                told_by(&board, number),
                Some(*expected),
                "{before}: {number}"
            );
            number = number.saturating_add(1);
        }
        assert!(rt; board.sent(number).is_none(), "{before}");
    }
    Ok(())
}
