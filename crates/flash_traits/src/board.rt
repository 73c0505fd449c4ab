//! The device and its link: each call by what it does, and by what a loss of power inside it may
//! leave.
ghost use Rattle.std.specs.Prelude.{◌≡◌, ◌⊎◌, ◌<◌, ◌≤◌, ◌++◌, [], ◌∷◌, List, ℕ, length, slice_index, IfOk, OnOk, OnErr, IfSome, MatchResult, MatchOption, Ok, Err, Some};
ghost use Rattle.std.specs.Option.{ForSome};
ghost use Rattle.flash_traits.specs.declared.board.Fault.{Fault};
ghost use Rattle.flash_traits.specs.Words.{Words, halfwords_in, region_length, IsSectorRegion, IsSectorSize, HasShape, blank, Programs, ProgramMayLeave, Erases, EraseMayLeave, Same};
ghost use Rattle.flash_traits.specs.Losses.{Received, received, SentFrame, sent_frame, IsEventInRange, Moment, IsUpTo, after_program, after_erase, after_recv, after_send, Outcome, Elapses, Receives, Sends, Unchanged, Either, ByResult, OnWords, ChangesWords, KeepsWords, Covers};
ghost use Rattle.flash_traits.specs.Causes.{HasCause};
ghost use Rattle.flash_traits.specs.declared.numbers.TheConstants.{DATAGRAM_BYTES, FRAME_BYTES};

/// A part of the image: one of the two sectors, or the guard row.
#[derive(Clone, Copy, Debug, PartialEq, Eq)]
pub enum Region {
    /// Sector 0.
    S0,
    /// Sector 1.
    S1,
    /// The guard row of 8,192 halfwords, which is never erased.
    Guard,
}

/// The sector size of an image: 16,384, 32,768, 65,536 or 131,072 bytes.
#[derive(Clone, Copy, Debug, PartialEq, Eq)]
pub struct Geometry {
    pub sector_bytes: u32,
}

/// What the link gives.
#[derive(Clone, Copy, Debug, PartialEq, Eq)]
pub enum Event {
    /// A datagram of `len` bytes, at most 2,048, from a peer below 8.
    Datagram { peer: u8, len: u16 },
    /// Nothing came for a while.
    Idle,
    /// The run is over.
    End,
}

/// The kinds of calls that fail.
#[derive(Clone, Copy, Debug, PartialEq, Eq)]
pub enum Fault {
    Attach,
    Read,
    /// A program or an erase.
    Flash,
    Recv,
    Send,
}

/// A call failed, and the count of its kind rose.
#[derive(Clone, Copy, Debug, PartialEq, Eq)]
pub struct Failed;

/// What the first halfword of a sector's header says.
#[derive(Clone, Copy, Debug, PartialEq, Eq)]
pub enum Mark {
    /// 5BFF: nothing is written here yet.
    Available,
    /// 5BFE: the log grows here.
    InUse,
    /// 5BFC: the log goes on in the other sector.
    Full,
}

/// Why a sector's log can't be read.
#[derive(Clone, Copy, Debug, PartialEq, Eq)]
pub enum LogError {
    /// A call failed.
    Fault(Fault),
    /// The halfword at this offset, counted in halfwords, breaks the grammar.
    Word { offset: u32, word: u16 },
}

impl From<Fault> for LogError {
    ghost use Rattle.flash_traits.specs.declared.board.LogError.TheVariants as errors;

    ghost from_gives = { λ fault e. e ≡ errors.Fault fault };

    fn from(fault: Fault) -> LogError {
        LogError::Fault(fault)
    }
}

/// A flash device and a link. Offsets count halfwords from the start of a region.
///
/// A program can only clear bits, and an erase makes every halfword of a sector FFFF. A loss of
/// power inside a program leaves the halfword before or after; inside an erase it leaves anything
/// in that sector. A call that failed leaves what a loss inside may leave. Programs, erases,
/// receptions and sendings are counted on one clock, the moment, so that one loss leaves words,
/// events and frames together. A board need not tell its words, events or frames; what it doesn't
/// tell it never tells later.
pub trait Board {
    /// The sector size of the last attach, or 0.
    ghost sector_bytes: { Self → ℕ };

    /// The board tells its words.
    ghost tells: { Self → Type 0 };

    /// The words that reads give, where they are told.
    ghost words: { Self → Words };

    /// The board stands for these events received so far and these frames sent so far. Where it
    /// doesn't tell them, it stands for any.
    ghost has_lists: { Self → List Received → List SentFrame → Type 0 };

    /// How many calls of each kind there were.
    ghost moment: { Self → Moment };

    /// What a loss at this moment may leave.
    ghost now: { Self → Outcome → Type 0 };

    /// What a loss at some moment from that one on, or inside a call since, may have left.
    ghost left: { Self → Moment → Outcome → Type 0 };

    /// The board keeps a record of its calls: what a loss may have left before a call, it still may
    /// after it. A board that keeps none tells only what a loss leaves now.
    ghost records: { Type 0 } = { Unit {0} };

    /// How often each kind of call has failed.
    ghost faults: { Self → Fault → ℕ };

    /// Opens the image of this name, or with `make` a blank one of that sector size in its place.
    /// Port 0 opens no link. The lists begin anew.
    fn attach(&mut self, name: &str, port: u16, make: Option<u32>) -> Result<Geometry, Failed>
        requires { ForSome make IsSectorSize }
        ensures geometry { IfOk result
            (λ geometry. (sector_bytes self.new ≡ geometry.sector_bytes)
            × IsSectorSize geometry.sector_bytes
            × IfSome make (λ size. geometry.sector_bytes ≡ size)) }
        ensures told { tells self.new → tells self.old }
        ensures words { OnOk result (tells self.new
            → MatchOption make (words self.new ≡ words self.old)
            (λ size. words self.new ≡ blank size)) }
        ensures lists { OnOk result (has_lists self.new [] []) }
        ensures starts { OnOk result ((o : Outcome) → now self.new o → (o.events ≡ [])
            × (o.frames ≡ [])) }
        ensures untold { ((e : List Received) (f : List SentFrame) → has_lists self.old e f)
            → (e : List Received) (f : List SentFrame) → has_lists self.new e f }
        ensures moment { moment self.new ≡ moment self.old }
        ensures cause { HasCause Fault.Attach (faults self.old) (faults self.new) result };

    /// The geometry of the last attach.
    fn geometry(&self) -> Geometry
        requires { IsSectorSize (sector_bytes self.now) }
        ensures { result.sector_bytes ≡ sector_bytes self.now };

    /// The halfword at an offset.
    fn read(&mut self, region: Region, at: u32) -> Result<u16, Failed>
        requires attached { IsSectorSize (sector_bytes self.old) }
        requires inside { at < region_length (sector_bytes self.old) region }
        ensures value { tells self.new
            → IfOk result (λ word. word ≡ slice_index (halfwords_in (words self.old) region) at) }
        ensures changes { ChangesWords records sector_bytes tells words has_lists moment now left
            self.old self.new Same Same }
        ensures keeps_told { tells self.old → tells self.new }
        ensures moment { moment self.new ≡ moment self.old }
        ensures cause { HasCause Fault.Read (faults self.old) (faults self.new) result };

    /// Makes the halfword at an offset `old & word`.
    fn program(&mut self, region: Region, at: u32, word: u16) -> Result<(), Failed>
        requires attached { IsSectorSize (sector_bytes self.old) }
        requires inside { at < region_length (sector_bytes self.old) region }
        ensures changes { ChangesWords records sector_bytes tells words has_lists moment now left
            self.old self.new (ProgramMayLeave region at word)
            (ByResult result (Programs region at word) (ProgramMayLeave region at word)) }
        ensures covers { Covers records moment now left self.old self.new
            (OnWords (ProgramMayLeave region at word)) }
        ensures moment { moment self.new ≡ after_program (moment self.old) }
        ensures cause { HasCause Fault.Flash (faults self.old) (faults self.new) result };

    /// Makes every halfword of a sector FFFF.
    fn erase(&mut self, region: Region) -> Result<(), Failed>
        requires attached { IsSectorSize (sector_bytes self.old) }
        requires sector { IsSectorRegion region }
        ensures changes { ChangesWords records sector_bytes tells words has_lists moment now left
            self.old self.new (EraseMayLeave region)
            (ByResult result (Erases region) (EraseMayLeave region)) }
        ensures covers { Covers records moment now left self.old self.new
            (OnWords (EraseMayLeave region)) }
        ensures moment { moment self.new ≡ after_erase (moment self.old) }
        ensures cause { HasCause Fault.Flash (faults self.old) (faults self.new) result };

    /// Waits for an event. A datagram's bytes are the first `len` of `into`.
    fn recv(&mut self, into: &mut [u8]) -> Result<Event, Failed>
        requires attached { IsSectorSize (sector_bytes self.old) }
        requires room { length into.old ≡ DATAGRAM_BYTES }
        ensures bounds { IfOk result (λ event. IsEventInRange event) }
        ensures words { KeepsWords sector_bytes tells words self.old self.new }
        ensures lists { (e : List Received) (f : List SentFrame) → has_lists self.old e f →
            MatchResult result (λ event. has_lists self.new (e ++ received event into.new ∷ []) f)
            (λ _. has_lists self.new e f) }
        ensures time { MatchResult result
            (λ event. Elapses records moment now left self.old self.new
            (Either Unchanged (Receives (received event into.new)))
            (Receives (received event into.new)))
            (λ _. Elapses records moment now left self.old self.new Unchanged Unchanged) }
        ensures covers { IfOk result
            (λ event. Covers records moment now left self.old self.new
            (Either Unchanged (Receives (received event into.new)))) }
        ensures moment { moment self.new ≡ after_recv (moment self.old) }
        ensures cause { HasCause Fault.Recv (faults self.old) (faults self.new) result };

    /// Sends a frame to a peer. One that failed was sent or not.
    fn send(&mut self, peer: u8, bytes: &[u8]) -> Result<(), Failed>
        requires attached { IsSectorSize (sector_bytes self.old) }
        requires some { 1 ≤ length bytes.now }
        requires room { length bytes.now ≤ FRAME_BYTES }
        ensures words { KeepsWords sector_bytes tells words self.old self.new }
        ensures lists { (e : List Received) (f : List SentFrame) → has_lists self.old e f →
            MatchResult result (λ _. has_lists self.new e (f ++ sent_frame peer bytes.now ∷ []))
            (λ _. has_lists self.new e f
            ⊎ has_lists self.new e (f ++ sent_frame peer bytes.now ∷ [])) }
        ensures time { Elapses records moment now left self.old self.new
            (Either Unchanged (Sends (sent_frame peer bytes.now)))
            (ByResult result (Sends (sent_frame peer bytes.now))
            (Either Unchanged (Sends (sent_frame peer bytes.now)))) }
        ensures covers { Covers records moment now left self.old self.new
            (Either Unchanged (Sends (sent_frame peer bytes.now))) }
        ensures moment { moment self.new ≡ after_send (moment self.old) }
        ensures cause { HasCause Fault.Send (faults self.old) (faults self.new) result };

    /// A loss now leaves what reads give.
    ghost reads: { (b : Self) (o : Outcome) → now b o → tells b × (o.words ≡ words b) };

    /// This moment is one of those since an earlier one.
    ghost counts_now: { (b : Self) (t : Moment) (o : Outcome) → IsUpTo t (moment b) → now b o
        → left b t o };

    /// Since this moment there is no other.
    ghost only_now: { (b : Self) (o : Outcome) → left b (moment b) o → now b o };

    /// The lists have the lengths of the sector size.
    ghost shape: { (b : Self) → tells b → IsSectorSize (sector_bytes b)
        → HasShape (sector_bytes b) (words b) };
}
