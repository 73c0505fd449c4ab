//! An event: the bytes of a station, or an idle turn, and then the lists that go on.
ghost use Rattle.std.specs.Prelude.{◌≡◌, ◌<◌, ◌≤◌, ◌∷◌, [], List, ℕ, length, take, Some, None, IfSome, MatchOption, OnOk};
ghost use Rattle.flash_traits.specs.declared.numbers.TheConstants.{DATAGRAM_BYTES, STATIONS};
ghost use Rattle.flash_traits.specs.Losses.{received, IsEventInRange, Datagram, Idle};
ghost use Rattle.mav_frames.specs.Frames.{IsReadFrom};
ghost use Rattle.vehicle_runs.specs.Reading.{beats, streams};
ghost use Rattle.vehicle_node.specs.Standing.{Fits};
ghost use Rattle.vehicle_node.specs.Steps.Calls.{Keeps, OfAnswer};
ghost use Rattle.vehicle_node.specs.Steps.Hearing.{Pushed, KeepsButRests, HasRest, IsFront, HearDone, ActsDone, TakeDone};

use crate::{Node, NodeError};
use flash_traits::{Board, Event, STATIONS};
use mav_frames::{Frame, front_length};
use vehicle_runs::frames_are_read;

impl Node {
    /// The cutter of a station keeps a rest.
    fn keeps_a_rest(&self, station: u8)
        requires { station < STATIONS }
        ensures { HasRest station self.now.rests }
    {
        self.cutters[station as usize].keeps_a_rest();
    }

    /// One more byte for the cutter of a station.
    fn push(&mut self, station: u8, byte: u8) -> Option<Frame>
        requires { station < STATIONS }
        ensures frame { MatchOption result (Pushed station byte None self.old.rests self.new.rests)
            (λ frame. (bytes : List ℕ) ×
            Pushed station byte (Some bytes) self.old.rests self.new.rests ×
            IsReadFrom bytes frame) }
        ensures keeps { KeepsButRests self.old self.new }
    {
        self.cutters[station as usize].push(byte)
    }

    /// One more byte of a station: the frame that is whole with it is answered.
    fn hear_byte<B: Board>(&mut self, board: &mut B, station: u8, byte: u8) -> Result<(), NodeError>
        requires fits { Fits B.Board board.old self.old }
        requires station { station < STATIONS }
        ensures done { HearDone B.Board self.old board.old station (byte ∷ [])
            result self.new board.new }
        ensures fits { OnOk result (Fits B.Board board.new self.new) }
        ensures keeps { Keeps B.Board OfAnswer board.old result board.new }
    {
        match self.push(station, byte) {
            Some(frame) => self.answer_frame(board, station, &frame),
            None => Ok(()),
        }
    }

    /// How long the whole frame is with which these bytes begin, where the station's cutter keeps
    /// nothing before them.
    fn front(&self, station: u8, bytes: &[u8]) -> Option<usize>
        requires { station < STATIONS }
        ensures { IfSome result (λ n. (0 < n) × (n ≤ length bytes.now) ×
            IsFront station (take n bytes.now) self.now.rests) }
    {
        if self.cutters[station as usize].is_empty() {
            front_length(bytes)
        } else {
            None
        }
    }

    /// A whole frame of a station whose cutter keeps nothing: it is answered where it stands.
    fn hear_front<B: Board>(
        &mut self,
        board: &mut B,
        station: u8,
        bytes: &[u8],
    ) -> Result<(), NodeError>
        requires fits { Fits B.Board board.old self.old }
        requires station { station < STATIONS }
        requires front { IsFront station bytes.now self.old.rests }
        ensures done { HearDone B.Board self.old board.old station bytes.now
            result self.new board.new }
        ensures fits { OnOk result (Fits B.Board board.new self.new) }
        ensures keeps { Keeps B.Board OfAnswer board.old result board.new }
    {
        self.answer_bytes(board, station, bytes)
    }

    /// The bytes of a station: each frame is answered as soon as it is whole, one that stands whole
    /// in the datagram without a copy.
    fn hear<B: Board>(&mut self, board: &mut B, station: u8, bytes: &[u8]) -> Result<(), NodeError>
        requires fits { Fits B.Board board.old self.old }
        requires station { station < STATIONS }
        ensures done { HearDone B.Board self.old board.old station bytes.now
            result self.new board.new }
        ensures fits { OnOk result (Fits B.Board board.new self.new) }
        ensures keeps { Keeps B.Board OfAnswer board.old result board.new }
    {
        self.keeps_a_rest(station);
        let mut at = 0;
        while at < bytes.len() {
            match self.front(station, &bytes[at..]) {
                Some(count) => {
                    self.hear_front(board, station, &bytes[at..at + count])?;
                    at += count;
                }
                None => {
                    self.hear_byte(board, station, bytes[at])?;
                    at += 1;
                }
            }
        }
        Ok(())
    }

    /// Each station's list goes on.
    fn stream_all<B: Board>(&mut self, board: &mut B) -> Result<(), NodeError>
        requires fits { Fits B.Board board.old self.old }
        ensures done { ActsDone B.Board self.old board.old streams result self.new board.new }
        ensures fits { OnOk result (Fits B.Board board.new self.new) }
        ensures keeps { Keeps B.Board OfAnswer board.old result board.new }
    {
        for station in 0..STATIONS {
            if self.core.streams(station) {
                self.stream(board, station)?;
            }
        }
        Ok(())
    }

    /// Each station is told that the vehicle is there.
    fn beat_all<B: Board>(&mut self, board: &mut B) -> Result<(), NodeError>
        requires fits { Fits B.Board board.old self.old }
        ensures done { ActsDone B.Board self.old board.old beats result self.new board.new }
        ensures fits { OnOk result (Fits B.Board board.new self.new) }
        ensures keeps { Keeps B.Board OfAnswer board.old result board.new }
    {
        for station in 0..STATIONS {
            self.beat(board, station)?;
        }
        Ok(())
    }

    /// A datagram of a station.
    fn answer_datagram<B: Board>(
        &mut self,
        board: &mut B,
        station: u8,
        bytes: &[u8],
    ) -> Result<(), NodeError>
        requires fits { Fits B.Board board.old self.old }
        requires station { station < STATIONS }
        ensures done { TakeDone B.Board (Datagram station bytes.now) self.old board.old
            result self.new board.new }
        ensures fits { OnOk result (Fits B.Board board.new self.new) }
        ensures keeps { Keeps B.Board OfAnswer board.old result board.new }
    {
        frames_are_read();
        self.hear(board, station, bytes)?;
        self.stream_all(board)
    }

    /// An idle turn.
    fn answer_idle<B: Board>(&mut self, board: &mut B) -> Result<(), NodeError>
        requires fits { Fits B.Board board.old self.old }
        ensures done { TakeDone B.Board Idle self.old board.old result self.new board.new }
        ensures fits { OnOk result (Fits B.Board board.new self.new) }
        ensures keeps { Keeps B.Board OfAnswer board.old result board.new }
    {
        self.beat_all(board)?;
        self.stream_all(board)
    }

    /// Answers an event whose bytes stand in the buffer.
    pub(crate) fn answer_event<B: Board>(
        &mut self,
        board: &mut B,
        event: Event,
        buffer: &[u8],
    ) -> Result<(), NodeError>
        requires fits { Fits B.Board board.old self.old }
        requires in_range { IsEventInRange event }
        requires room { length buffer.now ≡ DATAGRAM_BYTES }
        ensures done { TakeDone B.Board (received event buffer.now) self.old board.old
            result self.new board.new }
        ensures fits { OnOk result (Fits B.Board board.new self.new) }
        ensures keeps { Keeps B.Board OfAnswer board.old result board.new }
    {
        match event {
            Event::Datagram { peer, len } => {
                self.answer_datagram(board, peer, &buffer[..len as usize])
            }
            Event::Idle => self.answer_idle(board),
            Event::End => Ok(()),
        }
    }
}
