//! One act of an event: its lines are issued, all lines are put where it asks for that, and then
//! its frames are sent.
ghost use Rattle.std.specs.Prelude.{◌≡◌, ◌⊎◌, ◌<◌, ◌≤◌, [], List, ℕ, All, length, Option, OnOk, true};
ghost use Rattle.flash_traits.specs.declared.numbers.TheConstants.{STATIONS};
ghost use Rattle.storage_lines.specs.declared.lines.TheConstants.{BATCH_LINES};
ghost use Rattle.param_service.specs.Requests as parameters;
ghost use Rattle.mav_frames.specs.Cut.{IsFrame};
ghost use Rattle.mav_frames.specs.Frames.{IsReadFrom};
ghost use Rattle.block_store.specs.Store as store;
ghost use Rattle.storage_lines.specs.Bytes.{AreInside};
ghost use Rattle.mission_service.specs.Replies.{target_of};
ghost use Rattle.vehicle_core.specs.Vehicle.{Asked, Asks, Told};
ghost use Rattle.vehicle_core.specs.Acts.{Beat, Said, Stream, heard_as};
ghost use Rattle.vehicle_core.specs.Replies.{AreRepliesOf};
ghost use Rattle.vehicle_runs.specs.Frames.{deliveries};
ghost use Rattle.vehicle_node.specs.Standing.{Fits, IsIndexed};
ghost use Rattle.vehicle_node.specs.Steps.Calls.{Keeps, OfAnswer};
ghost use Rattle.vehicle_node.specs.Steps.Answering.{HasSpareFor, AnswerDone, ActDone, FrameDone};
ghost use Rattle.vehicle_node.specs.Steps.Sending.{IsInside};

mod issuing;
mod sending;

use crate::{Node, NodeError};
use flash_traits::Board;
use mav_frames::{Frame, heading_of, message, message_in};
use mav_messages::{Message, Replies, Sender};
use storage_lines::Batch;
use vehicle_core::{Need, sets_parameter};

impl Node {
    /// Issues the lines of an act, does what it needs, and then sends its replies.
    fn answer<B: Board>(
        &mut self,
        board: &mut B,
        need: Need,
        armed: bool,
        batch: &Batch,
        replies: &Replies,
    ) -> Result<(), NodeError>
        requires fits { store.Fits B.Board board.old self.old.lines.store }
        requires room { armed ≡ true → HasSpareFor self.old (length batch.now.items) }
        requires lines { AreInside batch.now.items }
        requires few { length batch.now.items ≤ BATCH_LINES }
        requires stations { All (λ reply. IsInside reply.to) replies.now.items }
        ensures done { (told : List Told) → AreRepliesOf told replies.now.items → AnswerDone B.Board
            need armed batch.now.items (deliveries self.old.machine.vehicle told) self.old board.old
            result self.new board.new }
        ensures index { OnOk result (self.new.index ≡ self.old.index) }
        ensures fits { OnOk result (store.Fits B.Board board.new self.new.lines.store) }
        ensures keeps { Keeps B.Board OfAnswer board.old result board.new }
    {
        self.issue(board, batch, armed)?;
        self.issued = self.issued.saturating_add(batch.len() as u64);
        self.settle(board, need, armed)?;
        self.send_replies(board, replies)
    }

    /// Finds the places of the parameter records anew where a message issued lines, but for those
    /// of a PARAM_SET, which the core has followed.
    fn refresh(&mut self, message: &Message, batch: &Batch)
        requires { (parameters.sets_parameter message.now ≡ true) ⊎ (batch.now.items ≡ [])
            → IsIndexed self.old }
        ensures same { self.new ≡ record self.old { index = self.new.index } }
        ensures index { IsIndexed self.new }
    {
        if sets_parameter(message) || batch.is_empty() {
            return;
        }
        self.core.refresh(self.lines.current());
    }

    /// Answers a message of a station.
    fn answer_message<B: Board>(
        &mut self,
        board: &mut B,
        from: Sender,
        v2: bool,
        message: &Message,
    ) -> Result<(), NodeError>
        requires fits { Fits B.Board board.old self.old }
        requires station { from.station < STATIONS }
        ensures done { (asked : Option Asked) × Asks (target_of from) message.now asked ×
            ActDone B.Board self.old board.old (Said from.station (heard_as v2 asked))
            result self.new board.new }
        ensures fits { OnOk result (Fits B.Board board.new self.new) }
        ensures keeps { Keeps B.Board OfAnswer board.old result board.new }
    {
        let mut batch = Batch::new();
        let mut replies = Replies::new();
        let was_armed = self.core.armed();
        let need = self.core.message(
            self.lines.current(),
            self.budget,
            from,
            v2,
            message,
            &mut batch,
            &mut replies,
        );
        let is_armed = self.core.armed();
        let armed = was_armed && is_armed;
        self.answer(board, need, armed, &batch, &replies)?;
        self.refresh(message, &batch);
        Ok(())
    }

    /// Answers a frame of a station, where it has a message.
    pub(crate) fn answer_frame<B: Board>(
        &mut self,
        board: &mut B,
        station: u8,
        frame: &Frame,
    ) -> Result<(), NodeError>
        requires fits { Fits B.Board board.old self.old }
        requires station { station < STATIONS }
        ensures done { (bytes : List ℕ) → IsReadFrom bytes frame.now →
            FrameDone B.Board self.old board.old station bytes result self.new board.new }
        ensures fits { OnOk result (Fits B.Board board.new self.new) }
        ensures keeps { Keeps B.Board OfAnswer board.old result board.new }
    {
        let Some(message) = message(frame) else {
            return Ok(());
        };
        let from = Sender {
            station,
            system: frame.system,
            component: frame.component,
        };
        self.answer_message(board, from, frame.v2, &message)
    }

    /// Answers a whole frame of a station where it stands in a datagram, if it has a message.
    pub(crate) fn answer_bytes<B: Board>(
        &mut self,
        board: &mut B,
        station: u8,
        bytes: &[u8],
    ) -> Result<(), NodeError>
        requires fits { Fits B.Board board.old self.old }
        requires station { station < STATIONS }
        requires frame { IsFrame bytes.now }
        ensures done { FrameDone B.Board self.old board.old station bytes.now
            result self.new board.new }
        ensures fits { OnOk result (Fits B.Board board.new self.new) }
        ensures keeps { Keeps B.Board OfAnswer board.old result board.new }
    {
        let Some(message) = message_in(bytes) else {
            return Ok(());
        };
        let heading = heading_of(bytes);
        let from = Sender {
            station,
            system: heading.system,
            component: heading.component,
        };
        self.answer_message(board, from, heading.v2, &message)
    }

    /// Tells a station that was heard that the vehicle is there, and which items of its uploads are
    /// next.
    pub(crate) fn beat<B: Board>(&mut self, board: &mut B, station: u8) -> Result<(), NodeError>
        requires fits { Fits B.Board board.old self.old }
        requires station { station < STATIONS }
        ensures done { ActDone B.Board self.old board.old (Beat station) result self.new board.new }
        ensures fits { OnOk result (Fits B.Board board.new self.new) }
        ensures keeps { Keeps B.Board OfAnswer board.old result board.new }
    {
        let mut replies = Replies::new();
        self.core.idle(station, &mut replies);
        let armed = self.core.armed();
        self.answer(board, Need::Nothing, armed, &Batch::new(), &replies)
    }

    /// Sends the next values of the list that is being sent to a station.
    pub(crate) fn stream<B: Board>(&mut self, board: &mut B, station: u8) -> Result<(), NodeError>
        requires fits { Fits B.Board board.old self.old }
        requires station { station < STATIONS }
        ensures done { ActDone B.Board self.old board.old (Stream station)
            result self.new board.new }
        ensures fits { OnOk result (Fits B.Board board.new self.new) }
        ensures keeps { Keeps B.Board OfAnswer board.old result board.new }
    {
        let mut replies = Replies::new();
        self.core
            .stream(self.lines.current(), station, &mut replies);
        let armed = self.core.armed();
        self.answer(board, Need::Nothing, armed, &Batch::new(), &replies)
    }
}
