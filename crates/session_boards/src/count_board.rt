//! A board in memory that makes each event from its number, and only counts its frames.
ghost use Rattle.std.specs.Prelude.{◌≡◌, ◌≤◌, ℕ, true};
ghost use Rattle.flash_traits.specs.Words.{HasShape, is_size};
ghost use Rattle.session_boards.specs.Device.{words_of};

use crate::device::{Device, SECTOR_BYTES};
use crate::session::event_at;
use flash_traits::{Board, Event, Failed, Geometry, Region};
use std::alloc::{AllocError, Global};
use std::marker::{Brand, PhantomData};

/// The session of a board, for contracts alone: a call that takes any board can't change it.
pub trait Session {
    /// How many rounds it has.
    ghost rounds: { ℕ };
}

impl Session for Brand {
    ghost rounds = { 0 };
}

/// A board in memory whose events are those of a generated session, and whose calls never fail.
///
/// The session begins anew at each attach. The board keeps no frame and no record of its calls: it
/// stands for any list of as many frames as were sent, and tells no losses.
#[derive(Drop)]
pub struct CountBoard<N: Session> {
    device: Device,
    /// The bytes of a sector.
    size: u32,
    attached: bool,
    rounds: u16,
    /// The events and the frames since the attach.
    events: u64,
    frames: u64,
    programs: u64,
    erases: u64,
    receptions: u64,
    sendings: u64,
    session: PhantomData<N>,
    ghost shape: { HasShape size (words_of device) },
    ghost known: { is_size size ≡ true },
    ghost few: { rounds ≤ 1000 },
    ghost same: { rounds ≡ N.rounds },
}

impl<N: Session> CountBoard<N> {
    ghost use Rattle.std.specs.Prelude.{◌≡◌, ◌≤◌, IfOk, List, length};
    ghost use Rattle.flash_traits.specs.Counts.{counts};
    ghost use Rattle.flash_traits.specs.declared.board.Fault.{Fault};
    ghost use Rattle.flash_traits.specs.Losses.{Received, SentFrame};
    ghost use Rattle.session_boards.specs.Device.{fresh_words};
    ghost use Rattle.session_boards.specs.Session.{AreFirst};

    /// A board with a fresh image of 131,072-byte sectors, before its first attach, for a session
    /// of 1 to 1,000 rounds.
    pub fn new(alloc: Global, rounds: u16) -> Result<CountBoard<N>, AllocError>
        requires range { (1 ≤ rounds) × (rounds ≤ 1000) }
        requires session { rounds ≡ N.rounds }
        ensures words { IfOk result
            (λ board. ⟦<CountBoard<N> as Board>⟧.words board ≡ fresh_words) }
        ensures unattached { IfOk result (λ board.
            ⟦<CountBoard<N> as Board>⟧.sector_bytes board ≡ 0) }
        ensures moment { IfOk result (λ board. ⟦<CountBoard<N> as Board>⟧.moment board
            ≡ record { programs = 0; erases = 0; receptions = 0; sendings = 0 }) }
    {
        Ok(CountBoard {
            device: Device::fresh(alloc)?,
            size: SECTOR_BYTES,
            attached: false,
            rounds,
            events: 0,
            frames: 0,
            programs: 0,
            erases: 0,
            receptions: 0,
            sendings: 0,
            session: PhantomData::<N>,
        })
    }

    /// How many frames were sent since the last attach.
    pub fn frames(&self) -> u64
        ensures { (e : List Received) (f : List SentFrame)
            → ⟦<CountBoard<N> as Board>⟧.has_lists self.now e f → result ≡ counts (length f) }
    {
        self.frames
    }

    /// The words are told at any time, the events are the first ones of the session, and no count
    /// of faults is ever other than 0.
    pub fn tells_session(&self)
        ensures told { ⟦<CountBoard<N> as Board>⟧.tells self.now }
        ensures events { (e : List Received) (f : List SentFrame)
            → ⟦<CountBoard<N> as Board>⟧.has_lists self.now e f → AreFirst N.rounds e }
        ensures faults { (kind : Fault) → ⟦<CountBoard<N> as Board>⟧.faults self.now kind ≡ 0 }
    {}
}

impl<N: Session> Board for CountBoard<N> {
    ghost use Rattle.flash_traits.specs.Losses.{Moment};
    ghost use Rattle.session_boards.specs.Counting.{HasLists};
    ghost use Rattle.session_boards.specs.Device.{told_size, shape_attached};

    ghost sector_bytes = { λ b. told_size b.attached b.size };

    ghost tells = { λ b. Unit {0} };

    ghost words = { λ b. words_of b.device };

    ghost has_lists = { λ b. HasLists N.rounds b.events b.frames };

    ghost moment = { λ b. record {
      programs = b.programs;
      erases = b.erases;
      receptions = b.receptions;
      sendings = b.sendings;
    } };

    ghost now = { λ _ _. ⊥ };

    ghost left = { λ _ _ _. ⊥ };

    ghost faults = { λ _ _. 0 };

    ghost reads = { λ b o now. absurd now };

    ghost counts_now = { λ b t o le now. now };

    ghost only_now = { λ b o left. left };

    ghost shape = { λ b told. shape_attached b.attached b.size (words_of b.device) b.shape };

    fn attach(&mut self, _name: &str, _port: u16, make: Option<u32>) -> Result<Geometry, Failed> {
        if let Some(sector_bytes) = make {
            self.device.blank(sector_bytes);
            self.size = sector_bytes;
        }
        self.attached = true;
        self.events = 0;
        self.frames = 0;
        Ok(self.geometry())
    }

    fn geometry(&self) -> Geometry {
        Geometry {
            sector_bytes: self.size,
        }
    }

    fn read(&mut self, region: Region, at: u32) -> Result<u16, Failed> {
        Ok(self.device.halfword(region, at as usize))
    }

    fn program(&mut self, region: Region, at: u32, word: u16) -> Result<(), Failed> {
        self.programs = self.programs.saturating_add(1);
        self.device.program(region, at as usize, word);
        Ok(())
    }

    fn erase(&mut self, region: Region) -> Result<(), Failed> {
        self.erases = self.erases.saturating_add(1);
        self.device.erase(region);
        Ok(())
    }

    fn recv(&mut self, into: &mut [u8]) -> Result<Event, Failed> {
        self.receptions = self.receptions.saturating_add(1);
        let number = self.events;
        self.events = self.events.saturating_add(1);
        Ok(event_at(self.rounds, number, into))
    }

    fn send(&mut self, _peer: u8, _bytes: &[u8]) -> Result<(), Failed> {
        self.sendings = self.sendings.saturating_add(1);
        self.frames = self.frames.saturating_add(1);
        Ok(())
    }
}
