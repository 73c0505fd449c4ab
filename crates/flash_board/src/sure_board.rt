//! A board in memory whose calls never fail.
ghost use Rattle.std.specs.Prelude.{◌≡◌, IsTrue};
ghost use Rattle.flash_traits.specs.Words.{is_size};

use crate::load::load;
use crate::memory::Memory;
use crate::record::Feed;
use crate::{Board, Event, Failed, Geometry, Region};
use arrayvec::ArrayVec;
use std::alloc::{AllocError, Global};

/// A board in memory whose calls never fail.
///
/// It tells its words, events, frames and losses until its record of program, erase, recv and send
/// calls since the last attach has no room for one more, and then works on as before without
/// telling them. Of each method `goes_on` says when it tells on, and `as_before` what it does, told
/// or not.
#[derive(Drop)]
pub struct SureBoard {
    memory: Memory,
    ghost known: { IsTrue (is_size memory.size) },
}

impl SureBoard {
    ghost use Rattle.std.specs.Prelude.{◌≡◌, IfOk, IsTrue, List, [], ℕ, length, take, slice_get};
    ghost use Rattle.flash_traits.specs.declared.board.Fault.{Fault};
    ghost use Rattle.flash_board.specs.Image.{image_words, image_size, image_bytes};
    ghost use Rattle.flash_board.specs.Kept.{peers_fit};
    ghost use Rattle.flash_traits.specs.Losses.{Received, SentFrame};
    ghost use Rattle.flash_traits.specs.Calls.{TellsAll};
    ghost use Rattle.flash_board.specs.Holdings.{frame_in};
    ghost use Rattle.flash_board.specs.OfSureBoard.{holdings};

    /// A board with this image and this feed, before its first attach. The image has 49,152,
    /// 81,920, 147,456 or 278,528 bytes.
    pub fn new(alloc: Global, image: &[u8], feed: &[Feed]) -> Result<SureBoard, AllocError>
        requires peers { IsTrue (peers_fit feed.now) }
        requires size { IsTrue (is_size (image_size (length image.now))) }
        ensures told { IfOk result (λ board. ⟦<SureBoard as Board>⟧.tells board) }
        ensures words { IfOk result (λ board. ⟦<SureBoard as Board>⟧.words board
            ≡ image_words (image_size (length image.now)) image.now) }
        ensures unattached { IfOk result (λ board. ⟦<SureBoard as Board>⟧.sector_bytes board ≡ 0) }
        ensures lists { IfOk result (λ board. ⟦<SureBoard as Board>⟧.has_lists board [] []) }
        ensures moment { IfOk result (λ board. ⟦<SureBoard as Board>⟧.moment board
            ≡ record { programs = 0; erases = 0; receptions = 0; sendings = 0 }) }
        ensures holdings { IfOk result (λ board. holdings board
            ≡ record {
              image_size = image_size (length image.now);
              upcoming = feed.now;
              first_frames = [];
              recorded = 0;
            }) }
    {
        Ok(SureBoard {
            memory: load(alloc, image, feed)?,
        })
    }

    /// No count of its faults is ever other than 0.
    pub fn never_fails(&self)
        ensures { (kind : Fault) → ⟦<SureBoard as Board>⟧.faults self.now kind ≡ 0 }
    {}

    /// While it tells its words, the board tells everything: the events and frames as one pair of
    /// lists, and that a loss now leaves just what reads and these lists give.
    pub fn tells_all(&self)
        ensures { ⟦<SureBoard as Board>⟧.tells self.now → TellsAll ⟦<SureBoard as Board>⟧ self.now }
    {}

    /// The n-th frame sent since the last attach, counted from 0, with its peer. None where fewer
    /// were sent, and for n of 4,096 and more.
    pub fn sent(&self, n: u32) -> Option<(u8, ArrayVec<u8, 280>)>
        ensures sent_frame { frame_in result ≡ slice_get (holdings self.now).first_frames n }
        ensures told { ⟦<SureBoard as Board>⟧.tells self.now →
            (e : List Received) (f : List SentFrame) →
            ⟦<SureBoard as Board>⟧.has_lists self.now e f → (holdings self.now).first_frames
            ≡ take 4096 f }
    {
        self.memory.sent(n)
    }

    /// The words as a file's bytes: sector 0, sector 1, the guard row, each halfword with its low
    /// byte first.
    pub fn image(&self, alloc: Global) -> Result<Vec<u8>, AllocError>
        ensures { IfOk result (λ bytes. bytes.items
            ≡ image_bytes (⟦<SureBoard as Board>⟧.words self.now)) }
    {
        self.memory.image.bytes(alloc)
    }
}

impl Board for SureBoard {
    ghost use Rattle.std.specs.Prelude.{◌≡◌, ◌⊎◌, ◌↔◌, ◌<◌, ◌≤◌, ◌-◌, ◌^◌, ◌++◌, [], ◌∷◌, if◌then◌else◌, List, ℕ, false, length, slice_index, is_ok, IsOk, IsErr, IfOk, OnOk, OnErr, IfSome, IsTrue, MatchResult, MatchOption, Ok, Err, Some, None};
    ghost use Rattle.std.specs.Option.{ForSome};
    ghost use Rattle.flash_traits.specs.declared.board.Fault.{Fault};
    ghost use Rattle.flash_traits.specs.Words.{halfwords_in, region_length, IsSectorRegion, IsSectorSize, is_size, blank, programmed, erased, Programs, ProgramMayLeave, Erases, EraseMayLeave, Same};
    ghost use Rattle.flash_traits.specs.Losses.{Received, received, SentFrame, sent_frame, IsEventInRange, Moment, after_program, after_erase, after_recv, after_send, Outcome, Receives, Sends, Unchanged, Either, ByResult, OnWords, KeepsWords};
    ghost use Rattle.flash_traits.specs.Counts.{raised};
    ghost use Rattle.flash_traits.specs.Calls.{Changes, Passes, MayHaveLeft};
    ghost use Rattle.flash_traits.specs.Causes.{HasCause};
    ghost use Rattle.flash_board.specs.Flash.{words_of};
    ghost use Rattle.flash_board.specs.Kept.{moment_of};
    ghost use Rattle.flash_board.specs.MemoryLaws.{Now, Left, HasLists, reads_now, counts_left, only_left, shape_now};
    ghost use Rattle.flash_board.specs.Holdings.{noted, fed, sent_on, newly_attached, next_event};
    ghost use Rattle.flash_board.specs.OfSureBoard.{device, holdings};

    ghost sector_bytes = { λ m. m.memory.sector_bytes };

    ghost tells = { λ m. m.memory.full ≡ false };

    ghost words = { λ m. words_of m.memory.image };

    ghost has_lists = { λ m. HasLists m.memory };

    ghost moment = { λ m. moment_of m.memory.counts };

    ghost now = { λ m. Now m.memory };

    ghost left = { λ m. Left m.memory };

    ghost faults = { λ _ _. 0 };

    ghost reads = { λ m. reads_now m.memory };

    ghost counts_now = { λ m. counts_left m.memory };

    ghost only_now = { λ m. only_left m.memory };

    ghost shape = { λ m told. shape_now m.memory };

    fn attach(&mut self, _name: &str, _port: u16, make: Option<u32>) -> Result<Geometry, Failed>
        requires { ForSome make IsSectorSize }
        ensures geometry { IfOk result (λ geometry. (⟦<SureBoard as Board>⟧.sector_bytes self.new
            ≡ geometry.sector_bytes) × IsSectorSize geometry.sector_bytes
            × IfSome make (λ size. geometry.sector_bytes ≡ size)) }
        ensures told { ⟦<SureBoard as Board>⟧.tells self.new →
            ⟦<SureBoard as Board>⟧.tells self.old }
        ensures words { OnOk result (⟦<SureBoard as Board>⟧.tells self.new →
            MatchOption make (⟦<SureBoard as Board>⟧.words self.new
            ≡ ⟦<SureBoard as Board>⟧.words self.old) (λ size. ⟦<SureBoard as Board>⟧.words self.new
            ≡ blank size)) }
        ensures lists { OnOk result (⟦<SureBoard as Board>⟧.has_lists self.new [] []) }
        ensures starts { OnOk result ((o : Outcome) → ⟦<SureBoard as Board>⟧.now self.new o →
            (o.events ≡ []) × (o.frames ≡ [])) }
        ensures untold { ((e : List Received) (f : List SentFrame) →
            ⟦<SureBoard as Board>⟧.has_lists self.old e f) →
            (e : List Received) (f : List SentFrame) →
            ⟦<SureBoard as Board>⟧.has_lists self.new e f }
        ensures moment { ⟦<SureBoard as Board>⟧.moment self.new
            ≡ ⟦<SureBoard as Board>⟧.moment self.old }
        ensures cause { HasCause Fault.Attach (⟦<SureBoard as Board>⟧.faults self.old)
            (⟦<SureBoard as Board>⟧.faults self.new) result }
        ensures sure { IsOk result }
        ensures goes_on { ⟦<SureBoard as Board>⟧.tells self.old →
            ⟦<SureBoard as Board>⟧.tells self.new }
        ensures as_before { OnOk result (MatchOption make (⟦<SureBoard as Board>⟧.words self.new
            ≡ ⟦<SureBoard as Board>⟧.words self.old) (λ size. ⟦<SureBoard as Board>⟧.words self.new
            ≡ blank size)) }
        ensures holdings { OnOk result (holdings self.new
            ≡ newly_attached (⟦<SureBoard as Board>⟧.sector_bytes self.new) (holdings self.old)) }
    {
        if self.memory.attach(make) {
            Ok(self.geometry())
        } else {
            unreachable!()
        }
    }

    fn geometry(&self) -> Geometry {
        Geometry {
            sector_bytes: self.memory.sector_bytes,
        }
    }

    fn read(&mut self, region: Region, at: u32) -> Result<u16, Failed>
        requires attached { IsSectorSize (⟦<SureBoard as Board>⟧.sector_bytes self.old) }
        requires inside { at < region_length (⟦<SureBoard as Board>⟧.sector_bytes self.old) region }
        ensures value { ⟦<SureBoard as Board>⟧.tells self.new → IfOk result (λ word. word
            ≡ slice_index (halfwords_in (⟦<SureBoard as Board>⟧.words self.old) region) at) }
        ensures changes { Changes ⟦<SureBoard as Board>⟧ self.old self.new Same Same }
        ensures keeps_told { ⟦<SureBoard as Board>⟧.tells self.old →
            ⟦<SureBoard as Board>⟧.tells self.new }
        ensures moment { ⟦<SureBoard as Board>⟧.moment self.new
            ≡ ⟦<SureBoard as Board>⟧.moment self.old }
        ensures cause { HasCause Fault.Read (⟦<SureBoard as Board>⟧.faults self.old)
            (⟦<SureBoard as Board>⟧.faults self.new) result }
        ensures sure { IsOk result }
        ensures as_before { IfOk result (λ word. word
            ≡ slice_index (halfwords_in (⟦<SureBoard as Board>⟧.words self.old) region) at) }
        ensures still { device self.new ≡ device self.old }
    {
        Ok(self.memory.image.halfword(region, at as usize))
    }

    fn program(&mut self, region: Region, at: u32, word: u16) -> Result<(), Failed>
        requires attached { IsSectorSize (⟦<SureBoard as Board>⟧.sector_bytes self.old) }
        requires inside { at < region_length (⟦<SureBoard as Board>⟧.sector_bytes self.old) region }
        ensures changes { Changes ⟦<SureBoard as Board>⟧ self.old self.new (ProgramMayLeave region
            at word)
            (ByResult result (Programs region at word) (ProgramMayLeave region at word)) }
        ensures covers { MayHaveLeft ⟦<SureBoard as Board>⟧ self.old self.new (OnWords
            (ProgramMayLeave region at word)) }
        ensures moment { ⟦<SureBoard as Board>⟧.moment self.new
            ≡ after_program (⟦<SureBoard as Board>⟧.moment self.old) }
        ensures cause { HasCause Fault.Flash (⟦<SureBoard as Board>⟧.faults self.old)
            (⟦<SureBoard as Board>⟧.faults self.new) result }
        ensures sure { IsOk result }
        ensures goes_on { ⟦<SureBoard as Board>⟧.tells self.old →
            (holdings self.old).recorded < 65536 →
            (⟦<SureBoard as Board>⟧.moment self.old).programs < 2 ^ 64 - 1 →
            ⟦<SureBoard as Board>⟧.tells self.new }
        ensures as_before { OnOk result (⟦<SureBoard as Board>⟧.words self.new
            ≡ programmed (⟦<SureBoard as Board>⟧.words self.old) region at word) }
        ensures holdings { holdings self.new ≡ noted (holdings self.old) }
    {
        self.memory.program(region, at as usize, word);
        Ok(())
    }

    fn erase(&mut self, region: Region) -> Result<(), Failed>
        requires attached { IsSectorSize (⟦<SureBoard as Board>⟧.sector_bytes self.old) }
        requires sector { IsSectorRegion region }
        ensures changes { Changes ⟦<SureBoard as Board>⟧ self.old self.new (EraseMayLeave region)
            (ByResult result (Erases region) (EraseMayLeave region)) }
        ensures covers { MayHaveLeft ⟦<SureBoard as Board>⟧ self.old self.new (OnWords
            (EraseMayLeave region)) }
        ensures moment { ⟦<SureBoard as Board>⟧.moment self.new
            ≡ after_erase (⟦<SureBoard as Board>⟧.moment self.old) }
        ensures cause { HasCause Fault.Flash (⟦<SureBoard as Board>⟧.faults self.old)
            (⟦<SureBoard as Board>⟧.faults self.new) result }
        ensures sure { IsOk result }
        ensures goes_on { ⟦<SureBoard as Board>⟧.tells self.old →
            (holdings self.old).recorded < 65536 →
            (⟦<SureBoard as Board>⟧.moment self.old).erases < 2 ^ 64 - 1 →
            ⟦<SureBoard as Board>⟧.tells self.new }
        ensures as_before { OnOk result (⟦<SureBoard as Board>⟧.words self.new
            ≡ erased (⟦<SureBoard as Board>⟧.words self.old) region) }
        ensures holdings { holdings self.new ≡ noted (holdings self.old) }
    {
        self.memory.erase(region);
        Ok(())
    }

    fn recv(&mut self, into: &mut [u8]) -> Result<Event, Failed>
        requires attached { IsSectorSize (⟦<SureBoard as Board>⟧.sector_bytes self.old) }
        requires room { length into.old ≡ 2048 }
        ensures bounds { IfOk result (λ event. IsEventInRange event) }
        ensures words { KeepsWords ⟦<SureBoard as Board>⟧.sector_bytes ⟦<SureBoard as Board>⟧.tells
            ⟦<SureBoard as Board>⟧.words self.old self.new }
        ensures lists { (e : List Received) (f : List SentFrame) →
            ⟦<SureBoard as Board>⟧.has_lists self.old e f →
            MatchResult result (λ event. ⟦<SureBoard as Board>⟧.has_lists self.new (e ++ received
            event into.new ∷ []) f) (λ _. ⟦<SureBoard as Board>⟧.has_lists self.new e f) }
        ensures time { MatchResult result
            (λ event. Passes ⟦<SureBoard as Board>⟧ self.old self.new (Either Unchanged (Receives
            (received event into.new))) (Receives (received event into.new)))
            (λ _. Passes ⟦<SureBoard as Board>⟧ self.old self.new Unchanged Unchanged) }
        ensures covers { IfOk result (λ event.
            MayHaveLeft ⟦<SureBoard as Board>⟧ self.old self.new (Either Unchanged (Receives
            (received event into.new)))) }
        ensures moment { ⟦<SureBoard as Board>⟧.moment self.new
            ≡ after_recv (⟦<SureBoard as Board>⟧.moment self.old) }
        ensures cause { HasCause Fault.Recv (⟦<SureBoard as Board>⟧.faults self.old)
            (⟦<SureBoard as Board>⟧.faults self.new) result }
        ensures sure { IsOk result }
        ensures goes_on { ⟦<SureBoard as Board>⟧.tells self.old →
            (holdings self.old).recorded < 65536 →
            (⟦<SureBoard as Board>⟧.moment self.old).receptions < 2 ^ 64 - 1 →
            ⟦<SureBoard as Board>⟧.tells self.new }
        ensures as_before { ⟦<SureBoard as Board>⟧.words self.new
            ≡ ⟦<SureBoard as Board>⟧.words self.old }
        ensures next { IfOk result (λ event. received event into.new
            ≡ next_event (holdings self.old)) }
        ensures holdings { holdings self.new ≡ noted (if is_ok result then fed (holdings self.old)
            else holdings self.old) }
    {
        Ok(self.memory.recv(into))
    }

    fn send(&mut self, peer: u8, bytes: &[u8]) -> Result<(), Failed>
        requires attached { IsSectorSize (⟦<SureBoard as Board>⟧.sector_bytes self.old) }
        requires some { 1 ≤ length bytes.now }
        requires room { length bytes.now ≤ 280 }
        ensures words { KeepsWords ⟦<SureBoard as Board>⟧.sector_bytes ⟦<SureBoard as Board>⟧.tells
            ⟦<SureBoard as Board>⟧.words self.old self.new }
        ensures lists { (e : List Received) (f : List SentFrame) →
            ⟦<SureBoard as Board>⟧.has_lists self.old e f →
            MatchResult result (λ _. ⟦<SureBoard as Board>⟧.has_lists self.new e (f ++ sent_frame
            peer bytes.now ∷ []))
            (λ _. ⟦<SureBoard as Board>⟧.has_lists self.new e f ⊎
            ⟦<SureBoard as Board>⟧.has_lists self.new e (f ++ sent_frame peer bytes.now ∷ [])) }
        ensures time { Passes ⟦<SureBoard as Board>⟧ self.old self.new (Either Unchanged (Sends
            (sent_frame peer bytes.now)))
            (ByResult result (Sends (sent_frame peer bytes.now)) (Either Unchanged (Sends
            (sent_frame peer bytes.now)))) }
        ensures covers { MayHaveLeft ⟦<SureBoard as Board>⟧ self.old self.new (Either Unchanged
            (Sends (sent_frame peer bytes.now))) }
        ensures moment { ⟦<SureBoard as Board>⟧.moment self.new
            ≡ after_send (⟦<SureBoard as Board>⟧.moment self.old) }
        ensures cause { HasCause Fault.Send (⟦<SureBoard as Board>⟧.faults self.old)
            (⟦<SureBoard as Board>⟧.faults self.new) result }
        ensures sure { IsOk result }
        ensures goes_on { ⟦<SureBoard as Board>⟧.tells self.old →
            (holdings self.old).recorded < 65536 →
            (⟦<SureBoard as Board>⟧.moment self.old).sendings < 2 ^ 64 - 1 →
            ⟦<SureBoard as Board>⟧.tells self.new }
        ensures as_before { ⟦<SureBoard as Board>⟧.words self.new
            ≡ ⟦<SureBoard as Board>⟧.words self.old }
        ensures holdings { holdings self.new ≡ noted (if is_ok result then sent_on (sent_frame peer
            bytes.now) (holdings self.old) else holdings self.old) }
    {
        self.memory.send(peer, bytes);
        Ok(())
    }
}
