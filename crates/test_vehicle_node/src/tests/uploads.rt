//! A mission and a fence replaced, with a loss at each call: what was stored is the old one, none,
//! or the new one, of a mission also a prefix of the new one.
ghost use Rattle.std.specs.Prelude.{IfOk, IsTrue};
ghost use Rattle.flash_board.specs.Kept.{peers_fit};

use super::*;

// What is uploaded. The items of an upload differ in their longitude alone.
#[derive(Clone, Copy)]
pub(super) enum Kind {
    /// Waypoints at 30.48 metres above home.
    Mission,
    /// Circles of 100 metres to stay inside.
    Fence,
}

fn number_of(kind: Kind) -> u8 {
    match kind {
        Kind::Mission => 0,
        Kind::Fence => 1,
    }
}

// An item of an upload.
pub(super) fn item(kind: Kind, seq: u16, y: i32) -> Message {
    let (command, frame, param1, z) = match kind {
        Kind::Mission => (16, 3, 0, 0x41F3_D70A),
        Kind::Fence => (5003, 0, 0x42C8_0000, 0),
    };
    Message::MissionItemInt {
        param1,
        param2: 0,
        param3: 0,
        param4: 0,
        x: 473_977_420,
        y,
        z,
        seq,
        command,
        target_system: 1,
        target_component: 1,
        frame,
        current: 0,
        autocontinue: 1,
        mission_type: number_of(kind),
    }
}

// The MISSION_COUNT that begins an upload.
pub(super) fn begin(kind: Kind, count: u16) -> Message {
    Message::MissionCount {
        count,
        target_system: 1,
        target_component: 1,
        mission_type: number_of(kind),
    }
}

// One item is uploaded, and later three others in its place.
fn replacing(alloc: Global, kind: Kind) -> Result<Vec<Feed>, Fail>
    ensures { IfOk result (λ feed. IsTrue (peers_fit feed.items)) }
{
    let mut feed = Vec::new(alloc);
    append(&mut feed, asked(&begin(kind, 1))?)?;
    append(&mut feed, asked(&item(kind, 0, 1))?)?;
    append_idle(&mut feed, 2)?;
    append(&mut feed, asked(&begin(kind, 3))?)?;
    append(&mut feed, asked(&item(kind, 0, 10))?)?;
    append(&mut feed, asked(&item(kind, 1, 11))?)?;
    append(&mut feed, asked(&item(kind, 2, 12))?)?;
    append_idle(&mut feed, 2)?;
    Ok(feed)
}

// Asks for an item.
pub(super) fn request(kind: Kind, seq: u16) -> Message {
    Message::MissionRequestInt {
        seq,
        target_system: 1,
        target_component: 1,
        mission_type: number_of(kind),
    }
}

// Asks how many items there are.
pub(super) fn request_list(kind: Kind) -> Message {
    Message::MissionRequestList {
        target_system: 1,
        target_component: 1,
        mission_type: number_of(kind),
    }
}

// Asks how many items there are, and for the first three.
fn downloading(alloc: Global, kind: Kind) -> Result<Vec<Feed>, Fail>
    ensures { IfOk result (λ feed. IsTrue (peers_fit feed.items)) }
{
    let mut feed = Vec::new(alloc);
    append(&mut feed, asked(&request_list(kind))?)?;
    append(&mut feed, asked(&request(kind, 0))?)?;
    append(&mut feed, asked(&request(kind, 1))?)?;
    append(&mut feed, asked(&request(kind, 2))?)?;
    Ok(feed)
}

// The longitudes of the items that are served from an image.
fn items_left(alloc: Global, image: &[u8], kind: Kind) -> Result<Vec<i32>, Fail> {
    let feed = downloading(alloc, kind)?;
    let board = served(alloc, image, &feed)?;
    let count = match message_sent(&board, 0) {
        Some((0, Message::MissionCount { count, .. })) if count <= 3 => count,
        _ => return Err(Fail::from("count")),
    };
    let mut found = Vec::new(alloc);
    'items: for number in 0..count {
        match message_sent(&board, 1 + number as u32) {
            Some((0, Message::MissionItemInt { y, .. })) => found.push(y)?,
            _ => return Err(Fail::from("item")),
        }
    }
    Ok(found)
}

// The session with a loss at each call in turn goes through these states, in order.
fn goes_through(alloc: Global, kind: Kind, states: &[&[i32]]) -> Result<(), Fail> {
    let image = formatted_image(alloc)?;
    let feed = replacing(alloc, kind)?;
    let mut state = 0usize;
    'calls: for lost in FIRST_PROGRAM..FIRST_PROGRAM + 600 {
        let (stopped, left) = cut_session(alloc, &image, &feed, lost)?;
        let found = items_left(alloc, &left, kind)?;
        if !states
            .get(state)
            .is_some_and(|items| *items == found.as_slice())
        {
            state = state.saturating_add(1);
            if !states
                .get(state)
                .is_some_and(|items| *items == found.as_slice())
            {
                return Err(Fail::from("neither the state before nor the next one"));
            }
        }
        if stopped.is_none() {
            if state.saturating_add(1) == states.len() {
                return Ok(());
            }
            return Err(Fail::from("the last state wasn't reached"));
        }
    }
    Err(Fail::from("no session was whole"))
}

#[test]
fn a_mission_is_old_or_a_prefix_of_the_new_one(rt: HostRuntime) -> Result<(), Fail> {
    goes_through(
        rt.alloc(),
        Kind::Mission,
        &[&[], &[1], &[], &[10], &[10, 11], &[10, 11, 12]],
    )
}

#[test]
fn a_fence_is_old_or_none_or_new(rt: HostRuntime) -> Result<(), Fail> {
    goes_through(rt.alloc(), Kind::Fence, &[&[], &[1], &[], &[10, 11, 12]])
}
