//! Replies sent as frames, each with its station's version and next number.
ghost use Rattle.std.specs.Prelude.{◌≡◌, ◌<◌, [], ◌∷◌, List, All};
ghost use Rattle.flash_traits.specs.declared.numbers.TheConstants.{STATIONS};
ghost use Rattle.flash_traits.specs.Words.{IsSectorSize};
ghost use Rattle.vehicle_core.specs.Vehicle.{Content, Told};
ghost use Rattle.vehicle_core.specs.Replies.{Tells, IsReplyOf, AreRepliesOf};
ghost use Rattle.vehicle_runs.specs.Frames.{stations, deliveries_of, deliveries};
ghost use Rattle.vehicle_node.specs.Steps.Calls.{KeepsLines};
ghost use Rattle.vehicle_node.specs.Steps.Sending.{IsInside, SendDone, delivery, deliveries_to, Counted};

use crate::{Node, NodeError};
use flash_traits::{Board, Fault, STATIONS};
use mav_frames::{FrameBytes, write_frame_into};
use mav_messages::{Message, Replies, Reply, To};

/// The system and the component of the vehicle.
const SYSTEM: u8 = 1;

const COMPONENT: u8 = 1;

impl Node {
    /// A frame was sent to a station.
    fn count_frame(&mut self, station: u8)
        requires station { station < STATIONS }
        ensures { Counted station self.old self.new }
    {
        let sequence = self.sequences[station as usize];
        self.sequences[station as usize] = sequence.wrapping_add(1);
        self.frames = self.frames.saturating_add(1);
    }

    /// Sends a message to a station, as a frame of the station's version.
    fn send_message<B: Board>(
        &mut self,
        board: &mut B,
        station: u8,
        message: &Message,
    ) -> Result<(), NodeError>
        requires attached { IsSectorSize (B.sector_bytes board.old) }
        requires station { station < STATIONS }
        ensures done { (content : Content) → Tells content message.now → SendDone B.Board
            (delivery station content ∷ []) self.old board.old result self.new board.new }
        ensures keeps { KeepsLines B.Board self.old board.old result self.new board.new }
    {
        let v2 = self.core.version_two(station);
        let sequence = self.sequences[station as usize];
        let mut frame = FrameBytes::new();
        write_frame_into(&mut frame, message, v2, SYSTEM, COMPONENT, sequence);
        match board.send(station, frame.as_slice()) {
            Ok(()) => {
                self.count_frame(station);
                Ok(())
            }
            Err(_) => Err(NodeError::Fault(Fault::Send)),
        }
    }

    /// The same, where the station was heard.
    fn send_if_heard<B: Board>(
        &mut self,
        board: &mut B,
        station: u8,
        message: &Message,
    ) -> Result<(), NodeError>
        requires attached { IsSectorSize (B.sector_bytes board.old) }
        requires station { station < STATIONS }
        ensures done { (content : Content) → Tells content message.now → SendDone B.Board
            (deliveries_to self.old.machine.vehicle (station ∷ []) content)
            self.old board.old result self.new board.new }
        ensures keeps { KeepsLines B.Board self.old board.old result self.new board.new }
    {
        if self.core.heard(station) {
            self.send_message(board, station, message)
        } else {
            Ok(())
        }
    }

    /// Sends a message to all stations that were heard, ascending.
    fn send_to_all<B: Board>(&mut self, board: &mut B, message: &Message) -> Result<(), NodeError>
        requires attached { IsSectorSize (B.sector_bytes board.old) }
        ensures done { (content : Content) → Tells content message.now → SendDone B.Board
            (deliveries_to self.old.machine.vehicle stations content)
            self.old board.old result self.new board.new }
        ensures keeps { KeepsLines B.Board self.old board.old result self.new board.new }
    {
        for station in 0..STATIONS {
            self.send_if_heard(board, station, message)?;
        }
        Ok(())
    }

    /// Sends a reply to its station, or to all that were heard.
    fn send_reply<B: Board>(&mut self, board: &mut B, reply: &Reply) -> Result<(), NodeError>
        requires attached { IsSectorSize (B.sector_bytes board.old) }
        requires inside { IsInside reply.now.to }
        ensures done { (told : Told) → IsReplyOf told reply.now → SendDone B.Board
            (deliveries_of self.old.machine.vehicle told) self.old board.old
            result self.new board.new }
        ensures keeps { KeepsLines B.Board self.old board.old result self.new board.new }
    {
        match reply.to {
            To::Station(station) => self.send_message(board, station, &reply.message),
            To::All => self.send_to_all(board, &reply.message),
        }
    }

    /// Sends replies in their order.
    pub(crate) fn send_replies<B: Board>(
        &mut self,
        board: &mut B,
        replies: &Replies,
    ) -> Result<(), NodeError>
        requires attached { IsSectorSize (B.sector_bytes board.old) }
        requires inside { All (λ reply. IsInside reply.to) replies.now.items }
        ensures done { (told : List Told) → AreRepliesOf told replies.now.items → SendDone B.Board
            (deliveries self.old.machine.vehicle told) self.old board.old
            result self.new board.new }
        ensures keeps { KeepsLines B.Board self.old board.old result self.new board.new }
    {
        for reply in replies.as_slice() {
            self.send_reply(board, reply)?;
        }
        Ok(())
    }
}
