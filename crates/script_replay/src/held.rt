//! The board of a script during one call of a node.
ghost use Rattle.std.specs.Prelude.{◌≡◌, ◌≢◌, ◌<◌, ℕ, None, length, take, slice_index};
ghost use Rattle.flash_traits.specs.Counts.{raised};
ghost use Rattle.script_replay.specs.Held.{input_marked, output_marked};

use crate::start::Start;
use flash_traits::{Board, DATAGRAM_BYTES, Event, Failed, Geometry, Region, Sink, Source};
use script_board::ScriptBoard;
use std::marker::PhantomData;

/// A script's board for one call of a node, which makes one reception at most, or none where it has
/// no room for one. Behind its first failure it is off: each call fails, and nothing is changed.
#[derive(Drop)]
pub(crate) struct Held<'a, S: Source, K: Sink, N: Start> {
    pub(crate) board: ScriptBoard<'a, S, K>,
    /// The call may receive an event.
    pub(crate) room: bool,
    /// There were more receptions than that.
    pub(crate) over: bool,
    /// The event that was received, with the bytes of its buffer.
    pub(crate) heard: Option<Event>,
    pub(crate) buffer: [u8; DATAGRAM_BYTES],
    /// How many calls of each kind failed: attaches, which always do, reads, programs and erases,
    /// receptions and sendings.
    pub(crate) attaches: u64,
    pub(crate) reads: u64,
    pub(crate) writes: u64,
    pub(crate) receptions: u64,
    pub(crate) sendings: u64,
    pub(crate) names: PhantomData<N>,
    ghost same_input: { board.input.ghost_name ≡ N.input },
    ghost same_out: { board.out.ghost_name ≡ N.out },
    ghost size: { board.geometry.sector_bytes ≡ N.sector_bytes },
    ghost same_room: { room ≡ N.room },
    ghost on: { board.mark ≡ None
        → (reads ≡ 0) × (writes ≡ 0) × (receptions ≡ 0) × (sendings ≡ 0) },
    ghost unfailed: { board.mark ≡ None → slice_index board.faults 3 ≡ 0 },
    ghost kept: { K.tells_written board.out.now
        → take (length N.written) (K.written board.out.now) ≡ N.written },
    ghost input_counts: { S.faults board.input.now ≡ input_marked board.mark N.input_faults },
    ghost output_counts: { K.faults board.out.now ≡ output_marked board.mark N.output_faults },
}

/// A board's moment after one more call of this kind.
fn counted(mut moment: [u64; 4], kind: usize) -> [u64; 4]
    requires { kind < 4 }
    ensures counted { slice_index result kind ≡ raised (slice_index moment kind) }
    ensures others { (k : ℕ) → (k ≢ kind) → slice_index result k ≡ slice_index moment k }
{
    moment[kind] = moment[kind].saturating_add(1);
    moment
}

/// Counts a call that fails.
fn refuse(failed: &mut u64) -> Failed
    ensures { failed.new ≡ raised failed.old }
{
    *failed = failed.saturating_add(1);
    Failed
}

impl<'a, S: Source, K: Sink, N: Start> Board for Held<'a, S, K, N> {
    ghost use Rattle.script_board.specs.Boards.{words_in};
    ghost use Rattle.script_board.specs.Lists.{moment_of};
    ghost use Rattle.script_board.specs.Shape.{shape_in};
    ghost use Rattle.flash_traits.specs.Causes.{counts_by_kind};
    ghost use Rattle.script_replay.specs.Held.{StandsFor, HasLeft};

    ghost records = { ⊥ };

    ghost sector_bytes = { λ h. h.board.geometry.sector_bytes };

    ghost tells = { λ _. Unit {0} };

    ghost words = { λ h. words_in h.board };

    ghost has_lists = { λ h. StandsFor N.Start h.room h.over h.board h.heard h.buffer };

    ghost moment = { λ h. moment_of h.board };

    ghost now = { λ h. HasLeft N.Start h.over h.board h.heard h.buffer };

    ghost left = { λ h t. HasLeft N.Start h.over h.board h.heard h.buffer };

    ghost faults = { λ h. counts_by_kind h.attaches h.reads h.writes h.receptions h.sendings };

    ghost reads = { λ h o now. (tt, now.words) };

    ghost counts_now = { λ h t o le now. now };

    ghost only_now = { λ h o left. left };

    ghost shape = { λ h told known. shape_in h.board };

    #[tactic(auto, using(flash_traits::proofs::Counting::raised_attach))]
    fn attach(&mut self, _name: &str, _port: u16, _make: Option<u32>) -> Result<Geometry, Failed> {
        self.attaches = self.attaches.saturating_add(1);
        Err(Failed)
    }

    fn geometry(&self) -> Geometry {
        self.board.geometry
    }

    #[tactic(auto, using(flash_traits::proofs::Counting::raised_read))]
    fn read(&mut self, region: Region, at: u32) -> Result<u16, Failed> {
        if self.board.mark.is_some() {
            return Err(refuse(&mut self.reads));
        }
        Ok(self.board.halfword(region, at))
    }

    #[tactic(auto, using(flash_traits::proofs::Counting::raised_flash))]
    fn program(&mut self, region: Region, at: u32, word: u16) -> Result<(), Failed> {
        self.board.moment = counted(self.board.moment, 0);
        if self.board.mark.is_some() {
            return Err(refuse(&mut self.writes));
        }
        match self.board.program_or_lose(region, at, word) {
            Ok(()) => Ok(()),
            Err(_) => Err(refuse(&mut self.writes)),
        }
    }

    #[tactic(auto, using(flash_traits::proofs::Counting::raised_flash))]
    fn erase(&mut self, region: Region) -> Result<(), Failed> {
        self.board.moment = counted(self.board.moment, 1);
        self.board.are_halfwords();
        if self.board.mark.is_some() {
            return Err(refuse(&mut self.writes));
        }
        match self.board.erase_or_lose(region) {
            Ok(()) => Ok(()),
            Err(_) => Err(refuse(&mut self.writes)),
        }
    }

    #[tactic(auto, using(flash_traits::proofs::Counting::raised_recv))]
    fn recv(&mut self, into: &mut [u8]) -> Result<Event, Failed> {
        self.board.moment = counted(self.board.moment, 2);
        if self.board.mark.is_some() {
            return Err(refuse(&mut self.receptions));
        }
        if self.over || !self.room || self.heard.is_some() {
            self.over = true;
            return Ok(Event::Idle);
        }
        match self.board.take_event(into) {
            Ok(event) => {
                self.heard = Some(event);
                self.buffer.copy_from_slice(into);
                Ok(event)
            }
            Err(_) => Err(refuse(&mut self.receptions)),
        }
    }

    #[tactic(auto, using(flash_traits::proofs::Counting::raised_send))]
    fn send(&mut self, peer: u8, bytes: &[u8]) -> Result<(), Failed> {
        self.board.moment = counted(self.board.moment, 3);
        if self.board.mark.is_some() {
            return Err(refuse(&mut self.sendings));
        }
        match self.board.print_frame(peer, bytes) {
            Ok(()) => Ok(()),
            Err(_) => Err(refuse(&mut self.sendings)),
        }
    }
}
