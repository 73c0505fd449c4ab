//! The device in memory: the words, the feed, and the record of calls since the last attach.
ghost use Rattle.std.specs.Prelude.{◌≡◌, ◌↔◌, ◌<◌, ◌≤◌, ◌≢◌, ◌^◌, ◌-◌, ◌+◌, ◌++◌, [], ◌∷◌, List, ℕ, Bool, true, false, min, length, map, take, drop, slice_get, IfOk, OnOk, OnErr, IsTrue, vec_capacity};
ghost use Rattle.std.specs.Bool.{OnTrue, OnFalse};
ghost use Rattle.flash_board.specs.Kept.{KeepsRecord, IsShaped, HasSpace, peers_fit, frame_of};
ghost use Rattle.flash_traits.specs.Losses.{received, sent_frame, IsEventInRange};
ghost use Rattle.flash_board.specs.Record.{event_of};
ghost use Rattle.flash_traits.specs.Words.{IsSectorSize, is_size};

use crate::counts::Counts;
use crate::flash::Flash;
use crate::record::{Call, Feed, Sent};
use crate::{Event, Region, is_sector_size};
use arrayvec::ArrayVec;

/// How many calls the record has room for.
pub(crate) const CALLS: usize = 65_536;

/// How many frames are kept to be looked at.
pub(crate) const FRAMES: usize = 4_096;

#[derive(Drop)]
pub(crate) struct Memory {
    pub(crate) image: Flash,
    pub(crate) base: Flash,
    pub(crate) size: u32,
    pub(crate) sector_bytes: u32,
    pub(crate) feed: Vec<Feed>,
    pub(crate) next: usize,
    pub(crate) calls: Vec<Call>,
    pub(crate) full: bool,
    pub(crate) counts: Counts,
    pub(crate) first: Counts,
    pub(crate) frames: Vec<Sent>,
    ghost kept: { full ≡ false
        → KeepsRecord image base feed.items calls.items frames.items counts first },
    ghost room: { HasSpace calls frames },
    ghost shaped: { IsShaped size image },
    ghost attached: { sector_bytes ≢ 0 → sector_bytes ≡ size },
    ghost peers: { IsTrue (peers_fit feed.items) },
}

// Puts a call on the record, or finds no room in it, or no number for its moment.
fn note(calls: &mut Vec<Call>, full: &mut bool, count: u64, call: Call)
    requires room { 65536 ≤ vec_capacity calls.old }
    requires size { length calls.old.items ≤ 65536 }
    ensures full { full.new ≡ false → full.old ≡ false }
    ensures count { full.new ≡ false → count < 2 ^ 64 - 1 }
    ensures noted { full.new ≡ false → calls.new.items ≡ calls.old.items ++ call ∷ [] }
    ensures goes_on { full.old ≡ false → length calls.old.items < 65536 → count < 2 ^ 64 - 1 →
        full.new ≡ false }
    ensures size { length calls.new.items ≡ min (length calls.old.items + 1) 65536 }
    ensures capacity { vec_capacity calls.old ≤ vec_capacity calls.new }
{
    if count == u64::MAX {
        *full = true;
    }
    if calls.len() >= CALLS || calls.push(call).is_err() {
        *full = true;
    }
}

// Keeps a frame, if it is one of the first.
fn keep(frames: &mut Vec<Sent>, peer: u8, bytes: &[u8])
    requires room { 4096 ≤ vec_capacity frames.old }
    requires size { length frames.old.items ≤ 4096 }
    requires bytes { length bytes.now ≤ 280 }
    ensures frames { map frame_of frames.new.items
        ≡ take 4096 (map frame_of frames.old.items ++ sent_frame peer bytes.now ∷ []) }
    ensures size { length frames.new.items ≤ 4096 }
    ensures capacity { vec_capacity frames.old ≤ vec_capacity frames.new }
{
    if frames.len() < FRAMES {
        let bytes = copied(bytes);
        let _ = frames.push(Sent { peer, bytes });
    }
}

// The next thing from the feed.
fn deliver(feed: &[Feed], next: usize, into: &mut [u8]) -> Event
    requires room { length into.old ≡ 2048 }
    requires peers { IsTrue (peers_fit feed.now) }
    ensures bounds { IsEventInRange result }
    ensures event { received result into.new ≡ event_of (slice_get feed.now next) }
{
    match feed.get(next) {
        None => Event::End,
        Some(Feed::End) => Event::End,
        Some(Feed::Idle) => Event::Idle,
        Some(Feed::Datagram { peer, bytes }) => {
            let bytes = bytes.as_slice();
            into[..bytes.len()].copy_from_slice(bytes);
            Event::Datagram {
                peer: *peer,
                len: bytes.len() as u16,
            }
        }
    }
}

// The place behind this one in the feed, which ends behind its last entry.
fn following(feed: &[Feed], next: usize) -> usize
    ensures { drop result feed.now ≡ drop 1 (drop next feed.now) }
{
    if next < feed.len() { next + 1 } else { next }
}

// A copy of a frame's bytes.
pub(crate) fn copied(bytes: &[u8]) -> ArrayVec<u8, 280>
    requires { length bytes.now ≤ 280 }
    ensures { result.items ≡ bytes.now }
{
    match ArrayVec::try_from(bytes) {
        Ok(copy) => copy,
        Err(_) => unreachable!(),
    }
}

impl Memory {
    ghost use Rattle.std.specs.Option.{ForSome};
    ghost use Rattle.std.specs.Prelude.{IfSome, MatchOption, None};
    ghost use Rattle.flash_traits.specs.Words.{halfwords_in, blank, programmed, erased, Programs, ProgramMayLeave, Erases, EraseMayLeave};
    ghost use Rattle.flash_traits.specs.Losses.{OnWords, after_program, after_erase, after_recv, after_send};
    ghost use Rattle.flash_board.specs.Flash.{words_of, half_erased};
    ghost use Rattle.flash_board.specs.Kept.{moment_of};
    ghost use Rattle.flash_board.specs.Holdings.{holdings_of, noted, fed, sent_on, newly_attached, next_event, frame_in};
    ghost use Rattle.flash_board.specs.MemoryLaws.{MemoryChanges, MemoryCovers, MemoryReceives, MemoryReceivesNothing, MemorySends, StaysTold};

    pub(crate) fn program(&mut self, region: Region, at: usize, word: u16)
        requires { at < length (halfwords_in (words_of self.old.image) region) }
        ensures changes { MemoryChanges self.old self.new (ProgramMayLeave region at word) (Programs
            region at word) }
        ensures covers { MemoryCovers self.old self.new (OnWords (ProgramMayLeave region at word)) }
        ensures moment { moment_of self.new.counts ≡ after_program (moment_of self.old.counts) }
        ensures words { words_of self.new.image
            ≡ programmed (words_of self.old.image) region at word }
        ensures holdings { holdings_of self.new ≡ noted (holdings_of self.old) }
        ensures goes_on { StaysTold self.old self.new (moment_of self.old.counts).programs }
    {
        let count = self.counts.programs;
        self.counts.programs = count.saturating_add(1);
        self.image.program(region, at, word);
        let call = Call::Program {
            region,
            at,
            word,
            done: true,
        };
        note(&mut self.calls, &mut self.full, count, call);
    }

    pub(crate) fn fail_program(&mut self, region: Region, at: usize, word: u16)
        ensures changes { MemoryChanges self.old self.new (ProgramMayLeave region at word)
            (ProgramMayLeave region at word) }
        ensures covers { MemoryCovers self.old self.new (OnWords (ProgramMayLeave region at word)) }
        ensures moment { moment_of self.new.counts ≡ after_program (moment_of self.old.counts) }
        ensures words { words_of self.new.image ≡ words_of self.old.image }
        ensures holdings { holdings_of self.new ≡ noted (holdings_of self.old) }
        ensures goes_on { StaysTold self.old self.new (moment_of self.old.counts).programs }
    {
        let count = self.counts.programs;
        self.counts.programs = count.saturating_add(1);
        let call = Call::Program {
            region,
            at,
            word,
            done: false,
        };
        note(&mut self.calls, &mut self.full, count, call);
    }

    pub(crate) fn erase(&mut self, region: Region)
        ensures changes { MemoryChanges self.old self.new (EraseMayLeave region) (Erases region) }
        ensures covers { MemoryCovers self.old self.new (OnWords (EraseMayLeave region)) }
        ensures moment { moment_of self.new.counts ≡ after_erase (moment_of self.old.counts) }
        ensures words { words_of self.new.image ≡ erased (words_of self.old.image) region }
        ensures holdings { holdings_of self.new ≡ noted (holdings_of self.old) }
        ensures goes_on { StaysTold self.old self.new (moment_of self.old.counts).erases }
    {
        let count = self.counts.erases;
        self.counts.erases = count.saturating_add(1);
        self.image.erase(region);
        let call = Call::Erase { region, done: true };
        note(&mut self.calls, &mut self.full, count, call);
    }

    pub(crate) fn fail_erase(&mut self, region: Region)
        ensures changes { MemoryChanges self.old self.new (EraseMayLeave region) (EraseMayLeave
            region) }
        ensures covers { MemoryCovers self.old self.new (OnWords (EraseMayLeave region)) }
        ensures moment { moment_of self.new.counts ≡ after_erase (moment_of self.old.counts) }
        ensures words { words_of self.new.image ≡ half_erased (words_of self.old.image) region }
        ensures holdings { holdings_of self.new ≡ noted (holdings_of self.old) }
        ensures goes_on { StaysTold self.old self.new (moment_of self.old.counts).erases }
    {
        let count = self.counts.erases;
        self.counts.erases = count.saturating_add(1);
        self.image.half_erase(region);
        let call = Call::Erase {
            region,
            done: false,
        };
        note(&mut self.calls, &mut self.full, count, call);
    }

    pub(crate) fn recv(&mut self, into: &mut [u8]) -> Event
        requires { length into.old ≡ 2048 }
        ensures bounds { IsEventInRange result }
        ensures receives { MemoryReceives self.old self.new (received result into.new) }
        ensures moment { moment_of self.new.counts ≡ after_recv (moment_of self.old.counts) }
        ensures next { received result into.new ≡ next_event (holdings_of self.old) }
        ensures words { words_of self.new.image ≡ words_of self.old.image }
        ensures holdings { holdings_of self.new ≡ noted (fed (holdings_of self.old)) }
        ensures goes_on { StaysTold self.old self.new (moment_of self.old.counts).receptions }
    {
        let count = self.counts.receptions;
        self.counts.receptions = count.saturating_add(1);
        let next = self.next;
        let event = deliver(&self.feed, next, into);
        self.next = following(&self.feed, next);
        let call = Call::Recv { next, done: true };
        note(&mut self.calls, &mut self.full, count, call);
        event
    }

    pub(crate) fn fail_recv(&mut self)
        ensures receives { MemoryReceivesNothing self.old self.new }
        ensures moment { moment_of self.new.counts ≡ after_recv (moment_of self.old.counts) }
        ensures words { words_of self.new.image ≡ words_of self.old.image }
        ensures holdings { holdings_of self.new ≡ noted (holdings_of self.old) }
        ensures goes_on { StaysTold self.old self.new (moment_of self.old.counts).receptions }
    {
        let count = self.counts.receptions;
        self.counts.receptions = count.saturating_add(1);
        let next = self.next;
        let call = Call::Recv { next, done: false };
        note(&mut self.calls, &mut self.full, count, call);
    }

    pub(crate) fn send(&mut self, peer: u8, bytes: &[u8])
        requires { length bytes.now ≤ 280 }
        ensures sends { MemorySends self.old self.new (sent_frame peer bytes.now) true }
        ensures moment { moment_of self.new.counts ≡ after_send (moment_of self.old.counts) }
        ensures words { words_of self.new.image ≡ words_of self.old.image }
        ensures holdings { holdings_of self.new
            ≡ noted (sent_on (sent_frame peer bytes.now) (holdings_of self.old)) }
        ensures goes_on { StaysTold self.old self.new (moment_of self.old.counts).sendings }
    {
        let count = self.counts.sendings;
        self.counts.sendings = count.saturating_add(1);
        keep(&mut self.frames, peer, bytes);
        let bytes = copied(bytes);
        let call = Call::Send {
            peer,
            bytes,
            done: true,
        };
        note(&mut self.calls, &mut self.full, count, call);
    }

    pub(crate) fn fail_send(&mut self, peer: u8, bytes: &[u8])
        requires { length bytes.now ≤ 280 }
        ensures sends { MemorySends self.old self.new (sent_frame peer bytes.now) false }
        ensures moment { moment_of self.new.counts ≡ after_send (moment_of self.old.counts) }
        ensures words { words_of self.new.image ≡ words_of self.old.image }
        ensures holdings { holdings_of self.new ≡ noted (holdings_of self.old) }
        ensures goes_on { StaysTold self.old self.new (moment_of self.old.counts).sendings }
    {
        let count = self.counts.sendings;
        self.counts.sendings = count.saturating_add(1);
        let bytes = copied(bytes);
        let call = Call::Send {
            peer,
            bytes,
            done: false,
        };
        note(&mut self.calls, &mut self.full, count, call);
    }

    /// The n-th frame sent since the last attach, if it was kept.
    pub(crate) fn sent(&self, n: u32) -> Option<(u8, ArrayVec<u8, 280>)>
        ensures { frame_in result ≡ slice_get (holdings_of self.now).first_frames n }
    {
        let sent = self.frames.get(n as usize)?;
        Some((sent.peer, copied(sent.bytes.as_slice())))
    }

    /// Attaches the image, or a blank one in its place. False where it has another length than the
    /// four.
    pub(crate) fn attach(&mut self, make: Option<u32>) -> bool
        requires { ForSome make IsSectorSize }
        ensures size { OnTrue result (IsSectorSize self.new.sector_bytes × IfSome make (λ size.
            self.new.sector_bytes ≡ size)) }
        ensures full { self.new.full ≡ self.old.full }
        ensures words { OnTrue result (MatchOption make (words_of self.new.image
            ≡ words_of self.old.image) (λ size. words_of self.new.image ≡ blank size)) }
        ensures anew { OnTrue result (self.new.calls.items ≡ []) }
        ensures holdings { OnTrue result (holdings_of self.new
            ≡ newly_attached self.new.sector_bytes (holdings_of self.old)) }
        ensures counts { self.new.counts ≡ self.old.counts }
        ensures known { OnTrue result (IsTrue (is_size self.new.size)) }
        ensures fails { (result ≡ false) ↔ ((make ≡ None) × (is_size self.old.size ≡ false)) }
        ensures still { OnFalse result (self.new ≡ self.old) }
    {
        if let Some(size) = make {
            self.image.refill(size as usize / 2);
            self.size = size;
        } else if !is_sector_size(self.size) {
            return false;
        }
        self.base.copy_from(&self.image);
        self.calls.clear();
        self.frames.clear();
        self.first = self.counts;
        self.sector_bytes = self.size;
        true
    }
}
