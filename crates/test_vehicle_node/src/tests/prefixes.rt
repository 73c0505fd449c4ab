//! A session of parameters, a mission and a fence on 16,384-byte sectors, with each call failing in
//! turn. What is left are the bytes after a prefix of the issued lines that has every flushed one,
//! and the frames that were sent are a prefix of the answers. Which prefixes may be left is
//! computed here, from what the session issues and sends where no call fails.
ghost use Rattle.std.specs.Prelude.{IsTrue};
ghost use Rattle.flash_board.specs.Kept.{peers_fit};

use super::uploads::{Kind, begin, item, request, request_list};
use super::*;
use block_store::BlockStore;
use sector_log::header_of;
use storage_lines::LineWrite;
use vehicle_node::Turn;

// What a ground station asks for.
#[derive(Clone, Copy)]
enum Ask {
    Nothing,
    List,
    Set([u8; 16], u32, u8),
    Upload(Kind, u16),
    Download(Kind, u16),
    /// A COMMAND_LONG with this number and param1.
    Order(u16, u32),
}

const FLUSH: Ask = Ask::Order(245, 0x3F80_0000);

const ARM: Ask = Ask::Order(400, 0x3F80_0000);

const DISARM: Ask = Ask::Order(400, 0);

// The session. A vehicle that doesn't answer an order yet goes on as if it had not come.
const SESSION: [Ask; 15] = [
    Ask::Nothing,
    Ask::List,
    Ask::Set(GYRO_FILTER, 0x41F0_0000, 4),
    Ask::Upload(Kind::Mission, 40),
    FLUSH,
    Ask::Upload(Kind::Fence, 12),
    ARM,
    Ask::Set(RADIUS, 0x42C8_0000, 9),
    Ask::Upload(Kind::Mission, 3),
    DISARM,
    Ask::Upload(Kind::Fence, 3),
    Ask::Set(GYRO_FILTER, 0x41F8_0000, 4),
    Ask::Nothing,
    Ask::Download(Kind::Mission, 3),
    Ask::Download(Kind::Fence, 3),
];

// A session that is armed while home has room for one line more.
const ARMED_SESSION: [Ask; 11] = [
    Ask::Set(GYRO_FILTER, 0x41F0_0000, 4),
    ARM,
    Ask::Set(RADIUS, 0x42C8_0000, 9),
    Ask::Set(GYRO_FILTER, 0x41F8_0000, 4),
    Ask::Upload(Kind::Fence, 3),
    FLUSH,
    Ask::Set(RADIUS, 0x3F9D_70A4, 9),
    DISARM,
    Ask::Set(GYRO_FILTER, 0x41F0_0000, 4),
    Ask::Nothing,
    Ask::Download(Kind::Fence, 3),
];

// The events of a session.
#[derive(Drop)]
struct Events {
    feed: Vec<Feed>,
    ghost fit: { IsTrue (peers_fit feed.items) },
}

impl Events {
    // A message to the vehicle.
    #[tactic(auto, using(crate::proofs::Feeds::peers_fit_append))]
    fn ask(&mut self, message: &Message) -> Result<(), Fail> {
        let event = asked(message)?;
        self.feed.push(event)?;
        Ok(())
    }

    // An idle turn.
    #[tactic(auto, using(crate::proofs::Feeds::peers_fit_append))]
    fn wait(&mut self) -> Result<(), Fail> {
        self.feed.push(Feed::Idle)?;
        Ok(())
    }

    // All items of an upload.
    fn upload(&mut self, kind: Kind, count: u16) -> Result<(), Fail> {
        self.ask(&begin(kind, count))?;
        for seq in 0..count {
            self.ask(&item(kind, seq, 7 * count as i32 + seq as i32))?;
        }
        Ok(())
    }

    // All items of a download.
    fn download(&mut self, kind: Kind, count: u16) -> Result<(), Fail> {
        self.ask(&request_list(kind))?;
        for seq in 0..count {
            self.ask(&request(kind, seq))?;
        }
        Ok(())
    }

    fn order(&mut self, command: u16, param1: u32) -> Result<(), Fail> {
        self.ask(&Message::CommandLong {
            param1,
            param2: 0,
            param3: 0,
            param4: 0,
            param5: 0,
            param6: 0,
            param7: 0,
            command,
            target_system: 1,
            target_component: 1,
            confirmation: 0,
        })
    }

    fn take(&mut self, ask: Ask) -> Result<(), Fail> {
        match ask {
            Ask::Nothing => self.wait(),
            Ask::List => self.ask(&Message::ParamRequestList {
                target_system: 1,
                target_component: 1,
            }),
            Ask::Set(param_id, param_value, param_type) => self.ask(&Message::ParamSet {
                param_value,
                target_system: 1,
                target_component: 1,
                param_id,
                param_type,
            }),
            Ask::Upload(kind, count) => self.upload(kind, count),
            Ask::Download(kind, count) => self.download(kind, count),
            Ask::Order(command, param1) => self.order(command, param1),
        }
    }
}

fn events_of(alloc: Global, session: &[Ask]) -> Result<Events, Fail> {
    let mut events = Events {
        feed: Vec::new(alloc),
    };
    for ask in session {
        events.take(*ask)?;
    }
    Ok(events)
}

// How many lines were issued and frames sent by the end of the opening, or of an event.
#[derive(Clone, Copy, Debug, PartialEq, Eq)]
struct Step {
    lines: u64,
    frames: u64,
}

fn note(steps: &mut Vec<Step>, node: &Node) -> Result<(), NodeError> {
    let step = Step {
        lines: node.issued(),
        frames: node.frames(),
    };
    match steps.push(step) {
        Ok(()) => Ok(()),
        Err(_) => Err(NodeError::Memory),
    }
}

// Serves an image of 16,384-byte sectors until the end comes, and notes each step.
fn serve<B: Board>(alloc: Global, board: &mut B, steps: &mut Vec<Step>) -> Result<(), NodeError> {
    attach(board)?;
    let mut node = Node::open(alloc, board)?;
    note(steps, &node)?;
    let mut buffer = [0; DATAGRAM_BYTES];
    'events: for _ in 0..1_000 {
        let turn = node.event(board, &mut buffer)?;
        note(steps, &node)?;
        if turn == Turn::End {
            break 'events;
        }
    }
    node.close(board)
}

// A session in which the call with this number fails, if any does.
#[derive(Drop)]
struct Session {
    board: MemBoard,
    stopped: Option<Fault>,
    /// The opening, and each finished event.
    steps: Vec<Step>,
}

fn session_with(
    alloc: Global,
    image: &[u8],
    events: &Events,
    failing: u32,
) -> Result<Session, Fail> {
    let mut board = MemBoard::new(alloc, image, &events.feed, &[failing])?;
    let mut steps = Vec::new(alloc);
    let stopped = match serve(alloc, &mut board, &mut steps) {
        Ok(()) => None,
        Err(NodeError::Fault(kind)) => Some(kind),
        Err(_) => return Err(Fail::from("no fault stopped the session")),
    };
    Ok(Session {
        board,
        stopped,
        steps,
    })
}

impl Session {
    fn finished(&self) -> usize {
        self.steps.len().saturating_sub(1)
    }

    // The events that were received: the finished ones, and the one in which the session stopped.
    fn received(&self) -> usize {
        match self.stopped {
            None | Some(Fault::Recv) => self.finished(),
            Some(_) => self.steps.len(),
        }
    }
}

// The storage bytes that an image is recovered to.
fn bytes_left(alloc: Global, image: &[u8]) -> Result<Vec<u8>, Fail> {
    let mut board = MemBoard::new(alloc, image, &[], &[])?;
    match board.attach("image", 0, None) {
        Ok(geometry) if geometry.sector_bytes == 16_384 => {}
        _ => return Err(Fail::from("attach")),
    }
    match BlockStore::open(alloc, &mut board) {
        Ok(store) => Ok(store.durable().to_vec(alloc)?),
        Err(_) => Err(Fail::from("the image is not recovered")),
    }
}

// The lines of the entries in sector 0, in their order: what was put since a blank image.
fn lines_put(alloc: Global, image: &[u8]) -> Result<Vec<LineWrite>, Fail> {
    let mut lines = Vec::new(alloc);
    let mut rest = match image.get(4..) {
        Some(rest) => rest,
        None => return Err(Fail::from("image")),
    };
    for _ in 0..image.len() {
        let Some((head, behind)) = rest.split_first_chunk::<2>() else {
            break;
        };
        rest = behind;
        let Some(header) = header_of(u16::from_le_bytes(*head)) else {
            break;
        };
        for line in header.line..header.line.saturating_add(header.lines as u16) {
            let Some((bytes, behind)) = rest.split_first_chunk::<8>() else {
                return Err(Fail::from("an entry is cut"));
            };
            rest = behind;
            lines.push(LineWrite {
                line,
                bytes: *bytes,
            })?;
        }
    }
    Ok(lines)
}

// What a session does where no call fails.
#[derive(Drop)]
struct Whole {
    session: Session,
    /// The bytes of the start.
    start: Vec<u8>,
    /// All lines that were issued.
    lines: Vec<LineWrite>,
    /// For each number of frames, the lines issued before the last storage acknowledgement among so
    /// many.
    acknowledged: Vec<u64>,
}

// A storage acknowledgement is a COMMAND_ACK with result 0 for the command 245 or 400.
fn is_storage_acknowledgement(frame: &[u8]) -> bool {
    let Some(frame) = whole_frame(frame) else {
        return false;
    };
    matches!(
        message(&frame),
        Some(Message::CommandAck {
            command: 245 | 400,
            result: 0,
            ..
        })
    )
}

// Each event is one message, whose lines are issued before its acknowledgement is sent.
fn lines_acknowledged(alloc: Global, session: &Session) -> Result<Vec<u64>, Fail> {
    let mut acknowledged = Vec::new(alloc);
    let mut lines = 0;
    acknowledged.push(lines)?;
    let mut number = 0u32;
    for step in session.steps.iter() {
        for _ in number as u64..step.frames {
            if let Some((_, frame)) = session.board.sent(number)
                && is_storage_acknowledgement(frame.as_slice())
            {
                lines = step.lines;
            }
            acknowledged.push(lines)?;
            number = number.saturating_add(1);
        }
    }
    Ok(acknowledged)
}

// The lines are those that the same session puts onto a blank image.
fn whole_session(alloc: Global, image: &[u8], events: &Events) -> Result<Whole, Fail> {
    let onto_blank = session_with(alloc, &formatted_image(alloc)?, events, u32::MAX)?;
    let lines = lines_put(alloc, &onto_blank.board.image(alloc)?)?;
    let session = session_with(alloc, image, events, u32::MAX)?;
    if session.stopped.is_some() || session.steps.as_slice() != onto_blank.steps.as_slice() {
        return Err(Fail::from("whole session"));
    }
    match session.steps.last() {
        Some(step) if step.lines == lines.len() as u64 => {}
        _ => return Err(Fail::from("lines")),
    }
    Ok(Whole {
        start: bytes_left(alloc, image)?,
        lines,
        acknowledged: lines_acknowledged(alloc, &session)?,
        session,
    })
}

impl Whole {
    // What had come by the end of the opening, or of an event: by that of the last one where the
    // session was being closed.
    fn step(&self, number: usize) -> Step {
        let steps = self.session.steps.as_slice();
        let last = steps.len().saturating_sub(1);
        match steps.get(number.min(last)) {
            Some(step) => *step,
            None => Step {
                lines: 0,
                frames: 0,
            },
        }
    }

    fn acknowledged_by(&self, frames: u64) -> u64 {
        self.acknowledged.get(frames as usize).copied().unwrap_or(0)
    }

    // How many lines are flushed: those of boot once an event was received, eight more for each
    // finished event, and all that were issued before a storage acknowledgement that was sent.
    fn flushed(&self, cut: &Session, frames: u64) -> u64 {
        if cut.received() == 0 {
            return 0;
        }
        let mut flushed = self.step(0).lines;
        for event in 1..=cut.finished() {
            let step = self.step(event);
            let known = flushed.max(self.acknowledged_by(step.frames));
            flushed = step.lines.min(known.saturating_add(8));
        }
        flushed.max(self.acknowledged_by(frames))
    }

    // How many frames were sent, where they are the first answers.
    fn frames_sent(&self, cut: &Session) -> Option<u64> {
        for number in 0..4_096 {
            let Some(frame) = cut.board.sent(number) else {
                return Some(number as u64);
            };
            if self.session.board.sent(number) != Some(frame) {
                return None;
            }
        }
        None
    }

    // Whether some number of the lines in this range leaves these bytes.
    fn leaves(&self, least: u64, most: u64, bytes: &[u8]) -> Result<bool, Fail> {
        let mut after = self.start.clone()?;
        for (number, write) in self.lines.iter().enumerate() {
            if number as u64 >= most {
                break;
            }
            if number as u64 >= least && after.as_slice() == bytes {
                return Ok(true);
            }
            let at = 8 * write.line as usize;
            if at + 8 > after.len() {
                return Ok(false);
            }
            after[at..at + 8].copy_from_slice(&write.bytes);
        }
        Ok(after.as_slice() == bytes)
    }

    // What a session that stopped has left is allowed.
    fn allows(&self, alloc: Global, cut: &Session) -> Result<(), Fail> {
        let Some(frames) = self.frames_sent(cut) else {
            return Err(Fail::from("another frame was sent"));
        };
        let (finished, received) = (self.step(cut.finished()), self.step(cut.received()));
        if frames < finished.frames || frames > received.frames {
            return Err(Fail::from("the answers of a finished event are missing"));
        }
        let left = bytes_left(alloc, &cut.board.image(alloc)?)?;
        if self.leaves(self.flushed(cut, frames), received.lines, &left)? {
            Ok(())
        } else {
            Err(Fail::from("what is left is no prefix that has all flushed lines"))
        }
    }
}

// An image of 16,384-byte sectors whose sector 0 has so many entries of line 1900, which nothing
// reads.
fn filled_image(alloc: Global, entries: usize) -> Result<Vec<u8>, Fail> {
    let mut image = formatted_image(alloc)?;
    for number in 0..entries {
        let at = number.saturating_mul(10).saturating_add(4);
        if at > 16_374 || image.len() < 16_384 {
            return Err(Fail::from("entries"));
        }
        image[at..at + 10].copy_from_slice(&[0xB0, 0x1D, 1, 2, 3, 4, 5, 6, 7, 8]);
    }
    Ok(image)
}

// From the first one on every hundredth call fails while the opening reads, and then each call in
// turn, until a session ends.
fn each_cut_is_allowed(
    alloc: Global,
    image: &[u8],
    whole: &Whole,
    events: &Events,
    first: u32,
) -> Result<(), Fail> {
    let mut failing = first;
    for _ in 0..10_000 {
        let cut = session_with(alloc, image, events, failing)?;
        whole.allows(alloc, &cut)?;
        if cut.stopped.is_none() {
            return Ok(());
        }
        failing = if failing < FIRST_PROGRAM - 100 {
            failing + 100
        } else {
            failing.max(FIRST_PROGRAM - 1).saturating_add(1)
        };
    }
    Err(Fail::from("no session was whole"))
}

#[test]
fn each_failing_call_leaves_flushed_lines_and_first_answers(rt: HostRuntime) -> Result<(), Fail> {
    let alloc = rt.alloc();
    let image = formatted_image(alloc)?;
    let events = events_of(alloc, &SESSION)?;
    let whole = whole_session(alloc, &image, &events)?;
    each_cut_is_allowed(alloc, &image, &whole, &events, 0)
}

#[test]
fn each_failing_call_of_a_session_with_a_switch_does_so(rt: HostRuntime) -> Result<(), Fail> {
    let alloc = rt.alloc();
    let image = filled_image(alloc, 1_550)?;
    let events = events_of(alloc, &SESSION)?;
    let whole = whole_session(alloc, &image, &events)?;
    let left = whole.session.board.image(alloc)?;
    let Some(guard) = left.get(32_768..32_774) else {
        return Err(Fail::from("image"));
    };
    assert_eq!(rt; guard, [0, 0, 0, 0, 0xFF, 0xFF].as_slice());
    each_cut_is_allowed(alloc, &image, &whole, &events, 0)
}

#[test]
fn each_failing_call_of_an_armed_session_with_a_full_home_does_so(
    rt: HostRuntime,
) -> Result<(), Fail> {
    let alloc = rt.alloc();
    // 60 bytes: two lines of boot, three of the first set, and one more
    let image = filled_image(alloc, 1_632)?;
    let events = events_of(alloc, &ARMED_SESSION)?;
    let whole = whole_session(alloc, &image, &events)?;
    let left = whole.session.board.image(alloc)?;
    // disarming has made the other sector home
    assert_eq!(rt;
        left.get(32_768..32_774),
        Some([0, 0, 0, 0, 0xFF, 0xFF].as_slice())
    );
    each_cut_is_allowed(alloc, &image, &whole, &events, FIRST_PROGRAM)
}
