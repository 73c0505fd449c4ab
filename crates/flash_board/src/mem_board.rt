//! A board in memory whose calls with certain numbers fail.
ghost use Rattle.std.specs.Prelude.{IsTrue};

use crate::counts::{Faults, fails_now};
use crate::load::load;
use crate::memory::Memory;
use crate::record::Feed;
use crate::{Board, Event, Failed, Geometry, Region};
use arrayvec::ArrayVec;
use std::alloc::{AllocError, Global};

/// A board in memory whose calls with certain numbers fail.
///
/// It tells its words, events, frames and losses until its record of program, erase, recv and send
/// calls since the last attach has no room for one more, and then works on as before without
/// telling them. Of each method `goes_on` says when it tells on, and `as_before` what it does, told
/// or not.
#[derive(Drop)]
pub struct MemBoard {
    memory: Memory,
    fails: Vec<u32>,
    number: u64,
    faults: Faults,
}

impl MemBoard {
    ghost use Rattle.std.specs.Prelude.{◌≡◌, IfOk, IsTrue, List, [], length, take, slice_get};
    ghost use Rattle.flash_traits.specs.declared.board.Fault.{Fault};
    ghost use Rattle.flash_board.specs.Image.{image_words, image_size, image_bytes};
    ghost use Rattle.flash_board.specs.Kept.{peers_fit};
    ghost use Rattle.flash_traits.specs.Losses.{Received, SentFrame};
    ghost use Rattle.flash_traits.specs.Calls.{TellsAll};
    ghost use Rattle.flash_board.specs.Holdings.{frame_in};
    ghost use Rattle.flash_board.specs.OfMemBoard.{holdings, failing_calls, next_call};

    /// A board with this image and this feed, before its first attach. The call with the number k,
    /// counted from 0 over all calls but `geometry`, fails where k is in `fails`. A program that
    /// fails leaves the halfword as it was, an erase leaves odd offsets FFFF and even offsets as
    /// they were, a recv received nothing and a send sent nothing. An attach fails too where the
    /// image has another length than 49,152, 81,920, 147,456 or 278,528 bytes and none is made.
    pub fn new(
        alloc: Global,
        image: &[u8],
        feed: &[Feed],
        fails: &[u32],
    ) -> Result<MemBoard, AllocError>
        requires { IsTrue (peers_fit feed.now) }
        ensures told { IfOk result (λ board. ⟦<MemBoard as Board>⟧.tells board) }
        ensures words { IfOk result (λ board. ⟦<MemBoard as Board>⟧.words board
            ≡ image_words (image_size (length image.now)) image.now) }
        ensures unattached { IfOk result (λ board. ⟦<MemBoard as Board>⟧.sector_bytes board ≡ 0) }
        ensures lists { IfOk result (λ board. ⟦<MemBoard as Board>⟧.has_lists board [] []) }
        ensures moment { IfOk result (λ board. ⟦<MemBoard as Board>⟧.moment board
            ≡ record { programs = 0; erases = 0; receptions = 0; sendings = 0 }) }
        ensures faults { IfOk result (λ board. (kind : Fault) →
            ⟦<MemBoard as Board>⟧.faults board kind ≡ 0) }
        ensures holdings { IfOk result (λ board. holdings board
            ≡ record {
              image_size = image_size (length image.now);
              upcoming = feed.now;
              first_frames = [];
              recorded = 0;
            }) }
        ensures fails { IfOk result (λ board. (failing_calls board ≡ fails.now) × (next_call board
            ≡ 0)) }
    {
        Ok(MemBoard {
            memory: load(alloc, image, feed)?,
            fails: fails.to_vec(alloc)?,
            number: 0,
            faults: Faults {
                attach: 0,
                read: 0,
                flash: 0,
                recv: 0,
                send: 0,
            },
        })
    }

    /// While it tells its words, the board tells everything: the events and frames as one pair of
    /// lists, and that a loss now leaves just what reads and these lists give.
    pub fn tells_all(&self)
        ensures { ⟦<MemBoard as Board>⟧.tells self.now → TellsAll ⟦<MemBoard as Board>⟧ self.now }
    {}

    /// The n-th frame sent since the last attach, counted from 0, with its peer. None where fewer
    /// were sent, and for n of 4,096 and more.
    pub fn sent(&self, n: u32) -> Option<(u8, ArrayVec<u8, 280>)>
        ensures sent_frame { frame_in result ≡ slice_get (holdings self.now).first_frames n }
        ensures told { ⟦<MemBoard as Board>⟧.tells self.now →
            (e : List Received) (f : List SentFrame) →
            ⟦<MemBoard as Board>⟧.has_lists self.now e f → (holdings self.now).first_frames
            ≡ take 4096 f }
    {
        self.memory.sent(n)
    }

    /// The words as a file's bytes: sector 0, sector 1, the guard row, each halfword with its low
    /// byte first.
    pub fn image(&self, alloc: Global) -> Result<Vec<u8>, AllocError>
        ensures { IfOk result (λ bytes. bytes.items
            ≡ image_bytes (⟦<MemBoard as Board>⟧.words self.now)) }
    {
        self.memory.image.bytes(alloc)
    }
}

impl Board for MemBoard {
    ghost use Rattle.std.specs.Prelude.{◌≡◌, ◌⊎◌, ◌↔◌, ◌<◌, ◌≤◌, ◌-◌, ◌^◌, ◌++◌, [], ◌∷◌, if◌then◌else◌, List, ℕ, false, length, slice_index, is_ok, IsOk, IsErr, IfOk, OnOk, OnErr, IfSome, IsTrue, MatchResult, MatchOption, Ok, Err, Some, None};
    ghost use Rattle.std.specs.Option.{ForSome};
    ghost use Rattle.flash_traits.specs.declared.board.Fault.{Fault};
    ghost use Rattle.flash_traits.specs.Words.{halfwords_in, region_length, IsSectorRegion, IsSectorSize, is_size, blank, programmed, erased, Programs, ProgramMayLeave, Erases, EraseMayLeave, Same};
    ghost use Rattle.flash_traits.specs.Losses.{Received, received, SentFrame, sent_frame, IsEventInRange, Moment, after_program, after_erase, after_recv, after_send, Outcome, Receives, Sends, Unchanged, Either, ByResult, OnWords, KeepsWords};
    ghost use Rattle.flash_traits.specs.Counts.{raised};
    ghost use Rattle.flash_traits.specs.Calls.{Changes, Passes, MayHaveLeft};
    ghost use Rattle.flash_traits.specs.Causes.{HasCause, counts_by_kind};
    ghost use Rattle.flash_board.specs.Flash.{words_of, half_erased};
    ghost use Rattle.flash_board.specs.Kept.{moment_of};
    ghost use Rattle.flash_board.specs.MemoryLaws.{Now, Left, HasLists, reads_now, counts_left, only_left, shape_now};
    ghost use Rattle.flash_board.specs.Holdings.{noted, fed, sent_on, newly_attached, next_event};
    ghost use Rattle.flash_board.specs.Numbers.{is_among};
    ghost use Rattle.flash_board.specs.OfMemBoard.{device, holdings, failing_calls, next_call};

    ghost sector_bytes = { λ m. m.memory.sector_bytes };

    ghost tells = { λ m. m.memory.full ≡ false };

    ghost words = { λ m. words_of m.memory.image };

    ghost has_lists = { λ m. HasLists m.memory };

    ghost moment = { λ m. moment_of m.memory.counts };

    ghost now = { λ m. Now m.memory };

    ghost left = { λ m. Left m.memory };

    ghost faults = { λ m. counts_by_kind m.faults.attach m.faults.read m.faults.flash m.faults.recv
        m.faults.send };

    ghost reads = { λ m. reads_now m.memory };

    ghost counts_now = { λ m. counts_left m.memory };

    ghost only_now = { λ m. only_left m.memory };

    ghost shape = { λ m told. shape_now m.memory };

    #[tactic(auto, using(flash_traits::proofs::Counting::raised_attach))]
    fn attach(&mut self, _name: &str, _port: u16, make: Option<u32>) -> Result<Geometry, Failed>
        requires { ForSome make IsSectorSize }
        ensures geometry { IfOk result (λ geometry. (⟦<MemBoard as Board>⟧.sector_bytes self.new
            ≡ geometry.sector_bytes) × IsSectorSize geometry.sector_bytes
            × IfSome make (λ size. geometry.sector_bytes ≡ size)) }
        ensures told { ⟦<MemBoard as Board>⟧.tells self.new → ⟦<MemBoard as Board>⟧.tells self.old }
        ensures words { OnOk result (⟦<MemBoard as Board>⟧.tells self.new →
            MatchOption make (⟦<MemBoard as Board>⟧.words self.new
            ≡ ⟦<MemBoard as Board>⟧.words self.old) (λ size. ⟦<MemBoard as Board>⟧.words self.new
            ≡ blank size)) }
        ensures lists { OnOk result (⟦<MemBoard as Board>⟧.has_lists self.new [] []) }
        ensures starts { OnOk result ((o : Outcome) → ⟦<MemBoard as Board>⟧.now self.new o →
            (o.events ≡ []) × (o.frames ≡ [])) }
        ensures untold { ((e : List Received) (f : List SentFrame) →
            ⟦<MemBoard as Board>⟧.has_lists self.old e f) →
            (e : List Received) (f : List SentFrame) →
            ⟦<MemBoard as Board>⟧.has_lists self.new e f }
        ensures moment { ⟦<MemBoard as Board>⟧.moment self.new
            ≡ ⟦<MemBoard as Board>⟧.moment self.old }
        ensures cause { HasCause Fault.Attach (⟦<MemBoard as Board>⟧.faults self.old)
            (⟦<MemBoard as Board>⟧.faults self.new) result }
        ensures fails { IsErr result ↔ IsTrue (is_among (failing_calls self.old) (next_call
            self.old)) ⊎ ((make ≡ None) × (is_size (holdings self.old).image_size ≡ false)) }
        ensures numbers { (failing_calls self.new ≡ failing_calls self.old) × (next_call self.new
            ≡ raised (next_call self.old)) }
        ensures goes_on { ⟦<MemBoard as Board>⟧.tells self.old →
            ⟦<MemBoard as Board>⟧.tells self.new }
        ensures as_before { OnOk result (MatchOption make (⟦<MemBoard as Board>⟧.words self.new
            ≡ ⟦<MemBoard as Board>⟧.words self.old) (λ size. ⟦<MemBoard as Board>⟧.words self.new
            ≡ blank size)) }
        ensures holdings { OnOk result (holdings self.new
            ≡ newly_attached (⟦<MemBoard as Board>⟧.sector_bytes self.new) (holdings self.old)) }
        ensures still { OnErr result (device self.new ≡ device self.old) }
    {
        if fails_now(&self.fails, &mut self.number) || !self.memory.attach(make) {
            self.faults.attach = self.faults.attach.saturating_add(1);
            return Err(Failed);
        }
        Ok(self.geometry())
    }

    fn geometry(&self) -> Geometry {
        Geometry {
            sector_bytes: self.memory.sector_bytes,
        }
    }

    #[tactic(auto, using(flash_traits::proofs::Counting::raised_read))]
    fn read(&mut self, region: Region, at: u32) -> Result<u16, Failed>
        requires attached { IsSectorSize (⟦<MemBoard as Board>⟧.sector_bytes self.old) }
        requires inside { at < region_length (⟦<MemBoard as Board>⟧.sector_bytes self.old) region }
        ensures value { ⟦<MemBoard as Board>⟧.tells self.new → IfOk result (λ word. word
            ≡ slice_index (halfwords_in (⟦<MemBoard as Board>⟧.words self.old) region) at) }
        ensures changes { Changes ⟦<MemBoard as Board>⟧ self.old self.new Same Same }
        ensures keeps_told { ⟦<MemBoard as Board>⟧.tells self.old →
            ⟦<MemBoard as Board>⟧.tells self.new }
        ensures moment { ⟦<MemBoard as Board>⟧.moment self.new
            ≡ ⟦<MemBoard as Board>⟧.moment self.old }
        ensures cause { HasCause Fault.Read (⟦<MemBoard as Board>⟧.faults self.old)
            (⟦<MemBoard as Board>⟧.faults self.new) result }
        ensures fails { IsErr result ↔ IsTrue (is_among (failing_calls self.old) (next_call
            self.old)) }
        ensures numbers { (failing_calls self.new ≡ failing_calls self.old) × (next_call self.new
            ≡ raised (next_call self.old)) }
        ensures as_before { IfOk result (λ word. word
            ≡ slice_index (halfwords_in (⟦<MemBoard as Board>⟧.words self.old) region) at) }
        ensures still { device self.new ≡ device self.old }
    {
        if fails_now(&self.fails, &mut self.number) {
            self.faults.read = self.faults.read.saturating_add(1);
            return Err(Failed);
        }
        Ok(self.memory.image.halfword(region, at as usize))
    }

    #[tactic(auto, using(flash_traits::proofs::Counting::raised_flash))]
    fn program(&mut self, region: Region, at: u32, word: u16) -> Result<(), Failed>
        requires attached { IsSectorSize (⟦<MemBoard as Board>⟧.sector_bytes self.old) }
        requires inside { at < region_length (⟦<MemBoard as Board>⟧.sector_bytes self.old) region }
        ensures changes { Changes ⟦<MemBoard as Board>⟧ self.old self.new (ProgramMayLeave region at
            word)
            (ByResult result (Programs region at word) (ProgramMayLeave region at word)) }
        ensures covers { MayHaveLeft ⟦<MemBoard as Board>⟧ self.old self.new (OnWords
            (ProgramMayLeave region at word)) }
        ensures moment { ⟦<MemBoard as Board>⟧.moment self.new
            ≡ after_program (⟦<MemBoard as Board>⟧.moment self.old) }
        ensures cause { HasCause Fault.Flash (⟦<MemBoard as Board>⟧.faults self.old)
            (⟦<MemBoard as Board>⟧.faults self.new) result }
        ensures fails { IsErr result ↔ IsTrue (is_among (failing_calls self.old) (next_call
            self.old)) }
        ensures numbers { (failing_calls self.new ≡ failing_calls self.old) × (next_call self.new
            ≡ raised (next_call self.old)) }
        ensures goes_on { ⟦<MemBoard as Board>⟧.tells self.old →
            (holdings self.old).recorded < 65536 →
            (⟦<MemBoard as Board>⟧.moment self.old).programs < 2 ^ 64 - 1 →
            ⟦<MemBoard as Board>⟧.tells self.new }
        ensures as_before { OnOk result (⟦<MemBoard as Board>⟧.words self.new
            ≡ programmed (⟦<MemBoard as Board>⟧.words self.old) region at word) }
        ensures holdings { holdings self.new ≡ noted (holdings self.old) }
        ensures leaves { OnErr result (⟦<MemBoard as Board>⟧.words self.new
            ≡ ⟦<MemBoard as Board>⟧.words self.old) }
    {
        if fails_now(&self.fails, &mut self.number) {
            self.memory.fail_program(region, at as usize, word);
            self.faults.flash = self.faults.flash.saturating_add(1);
            return Err(Failed);
        }
        self.memory.program(region, at as usize, word);
        Ok(())
    }

    #[tactic(auto, using(flash_traits::proofs::Counting::raised_flash))]
    fn erase(&mut self, region: Region) -> Result<(), Failed>
        requires attached { IsSectorSize (⟦<MemBoard as Board>⟧.sector_bytes self.old) }
        requires sector { IsSectorRegion region }
        ensures changes { Changes ⟦<MemBoard as Board>⟧ self.old self.new (EraseMayLeave region)
            (ByResult result (Erases region) (EraseMayLeave region)) }
        ensures covers { MayHaveLeft ⟦<MemBoard as Board>⟧ self.old self.new (OnWords (EraseMayLeave
            region)) }
        ensures moment { ⟦<MemBoard as Board>⟧.moment self.new
            ≡ after_erase (⟦<MemBoard as Board>⟧.moment self.old) }
        ensures cause { HasCause Fault.Flash (⟦<MemBoard as Board>⟧.faults self.old)
            (⟦<MemBoard as Board>⟧.faults self.new) result }
        ensures fails { IsErr result ↔ IsTrue (is_among (failing_calls self.old) (next_call
            self.old)) }
        ensures numbers { (failing_calls self.new ≡ failing_calls self.old) × (next_call self.new
            ≡ raised (next_call self.old)) }
        ensures goes_on { ⟦<MemBoard as Board>⟧.tells self.old →
            (holdings self.old).recorded < 65536 →
            (⟦<MemBoard as Board>⟧.moment self.old).erases < 2 ^ 64 - 1 →
            ⟦<MemBoard as Board>⟧.tells self.new }
        ensures as_before { OnOk result (⟦<MemBoard as Board>⟧.words self.new
            ≡ erased (⟦<MemBoard as Board>⟧.words self.old) region) }
        ensures holdings { holdings self.new ≡ noted (holdings self.old) }
        ensures leaves { OnErr result (⟦<MemBoard as Board>⟧.words self.new
            ≡ half_erased (⟦<MemBoard as Board>⟧.words self.old) region) }
    {
        if fails_now(&self.fails, &mut self.number) {
            self.memory.fail_erase(region);
            self.faults.flash = self.faults.flash.saturating_add(1);
            return Err(Failed);
        }
        self.memory.erase(region);
        Ok(())
    }

    #[tactic(auto, using(flash_traits::proofs::Counting::raised_recv))]
    fn recv(&mut self, into: &mut [u8]) -> Result<Event, Failed>
        requires attached { IsSectorSize (⟦<MemBoard as Board>⟧.sector_bytes self.old) }
        requires room { length into.old ≡ 2048 }
        ensures bounds { IfOk result (λ event. IsEventInRange event) }
        ensures words { KeepsWords ⟦<MemBoard as Board>⟧.sector_bytes ⟦<MemBoard as Board>⟧.tells
            ⟦<MemBoard as Board>⟧.words self.old self.new }
        ensures lists { (e : List Received) (f : List SentFrame) →
            ⟦<MemBoard as Board>⟧.has_lists self.old e f →
            MatchResult result (λ event. ⟦<MemBoard as Board>⟧.has_lists self.new (e ++ received
            event into.new ∷ []) f) (λ _. ⟦<MemBoard as Board>⟧.has_lists self.new e f) }
        ensures time { MatchResult result
            (λ event. Passes ⟦<MemBoard as Board>⟧ self.old self.new (Either Unchanged (Receives
            (received event into.new))) (Receives (received event into.new)))
            (λ _. Passes ⟦<MemBoard as Board>⟧ self.old self.new Unchanged Unchanged) }
        ensures covers { IfOk result (λ event.
            MayHaveLeft ⟦<MemBoard as Board>⟧ self.old self.new (Either Unchanged (Receives
            (received event into.new)))) }
        ensures moment { ⟦<MemBoard as Board>⟧.moment self.new
            ≡ after_recv (⟦<MemBoard as Board>⟧.moment self.old) }
        ensures cause { HasCause Fault.Recv (⟦<MemBoard as Board>⟧.faults self.old)
            (⟦<MemBoard as Board>⟧.faults self.new) result }
        ensures fails { IsErr result ↔ IsTrue (is_among (failing_calls self.old) (next_call
            self.old)) }
        ensures numbers { (failing_calls self.new ≡ failing_calls self.old) × (next_call self.new
            ≡ raised (next_call self.old)) }
        ensures goes_on { ⟦<MemBoard as Board>⟧.tells self.old →
            (holdings self.old).recorded < 65536 →
            (⟦<MemBoard as Board>⟧.moment self.old).receptions < 2 ^ 64 - 1 →
            ⟦<MemBoard as Board>⟧.tells self.new }
        ensures as_before { ⟦<MemBoard as Board>⟧.words self.new
            ≡ ⟦<MemBoard as Board>⟧.words self.old }
        ensures next { IfOk result (λ event. received event into.new
            ≡ next_event (holdings self.old)) }
        ensures holdings { holdings self.new ≡ noted (if is_ok result then fed (holdings self.old)
            else holdings self.old) }
    {
        if fails_now(&self.fails, &mut self.number) {
            self.memory.fail_recv();
            self.faults.recv = self.faults.recv.saturating_add(1);
            return Err(Failed);
        }
        Ok(self.memory.recv(into))
    }

    #[tactic(auto, using(flash_traits::proofs::Counting::raised_send))]
    fn send(&mut self, peer: u8, bytes: &[u8]) -> Result<(), Failed>
        requires attached { IsSectorSize (⟦<MemBoard as Board>⟧.sector_bytes self.old) }
        requires some { 1 ≤ length bytes.now }
        requires room { length bytes.now ≤ 280 }
        ensures words { KeepsWords ⟦<MemBoard as Board>⟧.sector_bytes ⟦<MemBoard as Board>⟧.tells
            ⟦<MemBoard as Board>⟧.words self.old self.new }
        ensures lists { (e : List Received) (f : List SentFrame) →
            ⟦<MemBoard as Board>⟧.has_lists self.old e f →
            MatchResult result (λ _. ⟦<MemBoard as Board>⟧.has_lists self.new e (f ++ sent_frame
            peer bytes.now ∷ []))
            (λ _. ⟦<MemBoard as Board>⟧.has_lists self.new e f ⊎
            ⟦<MemBoard as Board>⟧.has_lists self.new e (f ++ sent_frame peer bytes.now ∷ [])) }
        ensures time { Passes ⟦<MemBoard as Board>⟧ self.old self.new (Either Unchanged (Sends
            (sent_frame peer bytes.now)))
            (ByResult result (Sends (sent_frame peer bytes.now)) (Either Unchanged (Sends
            (sent_frame peer bytes.now)))) }
        ensures covers { MayHaveLeft ⟦<MemBoard as Board>⟧ self.old self.new (Either Unchanged
            (Sends (sent_frame peer bytes.now))) }
        ensures moment { ⟦<MemBoard as Board>⟧.moment self.new
            ≡ after_send (⟦<MemBoard as Board>⟧.moment self.old) }
        ensures cause { HasCause Fault.Send (⟦<MemBoard as Board>⟧.faults self.old)
            (⟦<MemBoard as Board>⟧.faults self.new) result }
        ensures fails { IsErr result ↔ IsTrue (is_among (failing_calls self.old) (next_call
            self.old)) }
        ensures numbers { (failing_calls self.new ≡ failing_calls self.old) × (next_call self.new
            ≡ raised (next_call self.old)) }
        ensures goes_on { ⟦<MemBoard as Board>⟧.tells self.old →
            (holdings self.old).recorded < 65536 →
            (⟦<MemBoard as Board>⟧.moment self.old).sendings < 2 ^ 64 - 1 →
            ⟦<MemBoard as Board>⟧.tells self.new }
        ensures as_before { ⟦<MemBoard as Board>⟧.words self.new
            ≡ ⟦<MemBoard as Board>⟧.words self.old }
        ensures holdings { holdings self.new ≡ noted (if is_ok result then sent_on (sent_frame peer
            bytes.now) (holdings self.old) else holdings self.old) }
        ensures leaves { (e : List Received) (f : List SentFrame) →
            ⟦<MemBoard as Board>⟧.has_lists self.old e f →
            OnErr result (⟦<MemBoard as Board>⟧.has_lists self.new e f) }
    {
        if fails_now(&self.fails, &mut self.number) {
            self.memory.fail_send(peer, bytes);
            self.faults.send = self.faults.send.saturating_add(1);
            return Err(Failed);
        }
        self.memory.send(peer, bytes);
        Ok(())
    }
}
