//! A node: the vehicle machine over a board, with its lines pending until they are put.
//!
//! A loss of power at any moment leaves the storage bytes after a prefix of the issued lines, which
//! has every flushed one and all that were issued before a storage acknowledgement that was sent,
//! and the frames that were sent are a prefix of the answers of the vehicle machine. While the
//! vehicle is armed nothing is erased.
#![tactic(auto)]

ghost use Rattle.std.specs.Prelude.{◌≡◌, ◌⊎◌, ◌+◌, ◌≤◌, ◌↔◌, ◌++◌, [], List, ℕ, length, true, Option, IfOk, IfErr, OnOk, OnErr, IsTrue, false, option_to_list};
ghost use Rattle.flash_traits.specs.declared.numbers.TheConstants.{GUARD_HALFWORDS, DATAGRAM_BYTES};
ghost use Rattle.flash_traits.specs.Words.{IsSectorSize};
ghost use Rattle.flash_traits.specs.Budget.{budget_of};
ghost use Rattle.flash_traits.specs.declared.board.Fault.{Fault};
ghost use Rattle.flash_traits.specs.declared.board.Fault.TheVariants.{Read, Flash, Recv, Send};
ghost use Rattle.flash_traits.specs.Losses.{Received, received, End, SentFrame, Outcome, After, ByResult};
ghost use Rattle.flash_traits.specs.Calls.{Passes, ErasesNothing};
ghost use Rattle.flash_traits.specs.Causes.{counts_after, told_by};
ghost use Rattle.guard_row.specs.Row.{IsGuardRow};
ghost use Rattle.storage_lines.specs.Lines.{after};
ghost use Rattle.sector_image.specs.FirstBad.{FirstBad};
ghost use Rattle.sector_image.specs.Stands.{Stands, IsReadAs, is_due, count_in, IsUsedUp};
ghost use Rattle.block_store.specs.Refusals.{IsWorn};
ghost use Rattle.block_store.specs.Store.{guard_of, is_spilled};
ghost use Rattle.dirty_lines.specs.Lines.{Lines};
ghost use Rattle.dirty_lines.specs.Losses.{IsWornForNext, NextVoids};
ghost use Rattle.vehicle_runs.specs.Runs.{Run};
ghost use Rattle.vehicle_runs.specs.Safe.{SafeSince, Adds};
ghost use Rattle.vehicle_runs.specs.Guard.{RisesWithin, MayWear};
ghost use Rattle.vehicle_node.specs.Standing.{Fits, IsAloneUnlessArmed, StandsAt, StandsForRun, StaysWithin, Finished, WasArmed, Node, armed_in};
ghost use Rattle.vehicle_node.specs.Guard.{WearsIn};
ghost use Rattle.vehicle_node.specs.Wearing.{PendingVoids, AllUnworn, BootUnworn};
ghost use Rattle.vehicle_node.specs.Refusals.{OnMemory, OnFault, OnForeign, OnWorn, LeavesAlone, fault_in};

mod answering;
mod hearing;
mod opening;

use crate::opening::booted;
use block_store::OpenError;
use dirty_lines::{DirtyLines, PENDING_LINES};
use flash_traits::{Board, Event, Fault, Region, budget};
use mav_frames::Cutter;
use std::alloc::Global;
use std::marker::Model;
use storage_lines::BATCH_LINES;
use vehicle_core::Core;
use vehicle_runs::frames_are_read;

/// The most pending lines with which the lines of any change are issued; where there are more, some
/// are put before.
pub const ROOM_FROM: usize = PENDING_LINES - BATCH_LINES;

/// The limit has this number.
pub fn limits()
    ensures { ROOM_FROM ≡ 1984 }
{}

/// Why a node stopped. It is then dropped, and the board is to be opened again.
#[derive(Clone, Copy, Debug, PartialEq, Eq)]
pub enum NodeError {
    /// There is no memory. Nothing was asked of the board.
    Memory,
    /// A call of the board failed.
    Fault(Fault),
    /// The words are no image: this is the first foreign word, with its offset in halfwords.
    Foreign {
        region: Region,
        offset: u32,
        word: u16,
    },
    /// A sector is to be voided and the guard row is used up.
    Worn {
        count: u16,
    },
}

impl From<OpenError> for NodeError {
    ghost use Rattle.vehicle_node.specs.Steps.Errors.{opens_not};

    ghost from_gives = { λ refusal e. e ≡ opens_not refusal };

    fn from(refusal: OpenError) -> NodeError {
        match refusal {
            OpenError::Memory => NodeError::Memory,
            OpenError::Fault(kind) => NodeError::Fault(kind),
            OpenError::Foreign {
                region,
                offset,
                word,
            } => NodeError::Foreign {
                region,
                offset,
                word,
            },
            OpenError::Worn { count } => NodeError::Worn { count },
        }
    }
}

/// Whether the finished event was the end.
#[derive(Clone, Copy, Debug, PartialEq, Eq)]
pub enum Turn {
    More,
    End,
}

/// A vehicle over a board. Every call takes the board of the opening, which nobody else changes in
/// between.
#[derive(Drop)]
pub struct Node {
    pub(crate) budget: u32,
    pub(crate) lines: DirtyLines,
    pub(crate) core: Core,
    pub(crate) cutters: [Cutter; 8],
    pub(crate) sequences: [u8; 8],
    pub(crate) frames: u64,
    pub(crate) issued: u64,
}

impl Model for Node {
    ghost use Rattle.vehicle_node.specs.Standing.{Node};
    ghost use Rattle.vehicle_node.specs.Steps.Inside.{view_of};

    ghost Value = { Node };

    ghost view = { view_of };
}

fn turn_of(event: Event) -> Turn
    ensures { (buffer : List ℕ) → ((result ≡ Turn.End) ↔ (received event buffer ≡ End)) }
{
    match event {
        Event::End => Turn::End,
        _ => Turn::More,
    }
}

impl Node {
    /// Recovers the image, issues the lines of boot and flushes them. All memory is taken before
    /// the first call of the board.
    pub fn open<B: Board>(alloc: Global, board: &mut B) -> Result<Node, NodeError>
        requires attached { IsSectorSize (B.sector_bytes board.old) }

        ensures fits { IfOk result (λ node. Fits B.Board board.new node) }
        ensures alone { IfOk result IsAloneUnlessArmed }
        ensures unarmed { IfOk result (λ node. armed_in node ≡ false) }
        ensures stands { IfOk result (λ node. B.tells board.new → (b : List ℕ) →
            Stands (B.words board.old) b →
            StandsForRun node b [] [] 0) }
        ensures lists { (e : List Received) (f : List SentFrame) → B.has_lists board.old e f →
            B.has_lists board.new e f }
        ensures losses { (b : List ℕ) → (B.tells board.old → Stands (B.words board.old) b) →
            Passes B.Board board.old board.new
            (SafeSince (budget_of (B.sector_bytes board.old)) b [] [] 0)
            (SafeSince (budget_of (B.sector_bytes board.old)) b [] [] 0) }
        ensures here { OnOk result ((o : Outcome) → B.now board.new o →
            After (B.now board.old) (Adds [] []) o) }
        ensures geometry { B.sector_bytes board.new ≡ B.sector_bytes board.old }
        ensures told { B.tells board.new → B.tells board.old }

        // the guard count rises by at most two, and by two for each line of boot
        ensures guard { (count : ℕ) (b : List ℕ) →
            (B.tells board.old → IsGuardRow (B.words board.old).guard count ×
            Stands (B.words board.old) b) →
            Passes B.Board board.old board.new
            (RisesWithin (budget_of (B.sector_bytes board.old)) count b [])
            (RisesWithin (budget_of (B.sector_bytes board.old)) count b []) }
        ensures within { IfOk result (λ node. B.tells board.new → (count : ℕ) (b : List ℕ) →
            IsGuardRow (B.words board.old).guard count → Stands (B.words board.old) b →
            StaysWithin count node b [] [] 0) }

        // words that are no image are left alone
        ensures left_alone { B.tells board.new → (place : _) → FirstBad (B.words board.old) place →
            LeavesAlone B.Board board.old board.new result }
        ensures foreign { IfErr result (λ e. OnForeign e (λ place. B.tells board.new →
            FirstBad (B.words board.old) place)) }
        ensures foreign_idle { IfErr result (λ e. OnForeign e
            (λ place. B.moment board.new ≡ B.moment board.old)) }
        ensures not_foreign { OnOk result (B.tells board.new → (b : List ℕ) ×
            Stands (B.words board.old) b) }
        ensures worn { IfErr result (λ e. OnWorn e (λ count. (count ≡ GUARD_HALFWORDS) ×
            (bytes : _) × IsWorn B.Board board.new bytes)) }
        ensures worn_where { IfErr result (λ e. OnWorn e (λ count.
            (B.tells board.new → IsUsedUp (B.words board.old))
            ⊎ ((lines : Lines) × IsWornForNext B.Board board.new lines))) }
        ensures worn_lines { IfErr result (λ e. OnWorn e (λ n. B.tells board.new →
            (count : ℕ) (b : List ℕ) → IsGuardRow (B.words board.old).guard count →
            Stands (B.words board.old) b →
            MayWear (budget_of (B.sector_bytes board.old)) count b [])) }
        ensures worn_image { IfErr result (λ e. OnWorn e (λ count. B.tells board.new →
            (b : List ℕ) × Stands (B.words board.old) b)) }
        // always where a sector is to be voided and the guard count is 8,192: of the image found
        ensures used_up { B.tells board.new → (reading : _) → IsReadAs (B.words board.old) reading →
            IsTrue (is_due reading) →
            count_in reading ≡ GUARD_HALFWORDS → IfOk result (λ _. ⊥) }
        // and of the lines of boot: none that was put had a sector to be voided at that count
        ensures unworn { IfOk result (λ node. B.tells board.new →
            BootUnworn (B.words board.old) node.lines) }
        ensures memory { IfErr result (λ e. OnMemory e (board.new ≡ board.old)) }
        ensures fault { IfErr result (λ e. OnFault e (λ kind. kind ≡ Read ⊎ kind ≡ Flash)) }
        ensures counts { B.faults board.new
            ≡ counts_after (told_by fault_in result) (B.faults board.old) }
    {
        let lines = DirtyLines::open(alloc, board)?;
        let mut node = booted(budget(board.geometry()), lines);
        node.flush_all(board, false)?;
        Ok(node)
    }

    /// Receives one event into the buffer of 2,048 bytes and finishes it: each right frame is
    /// answered at once, then the lists go on, and then at least eight pending lines are put, or
    /// all.
    pub fn event<B: Board>(&mut self, board: &mut B, buffer: &mut [u8]) -> Result<Turn, NodeError>
        requires fits { Fits B.Board board.old self.old }
        requires room { length buffer.old ≡ DATAGRAM_BYTES }

        ensures fits { OnOk result (Fits B.Board board.new self.new) }
        ensures alone { OnOk result (IsAloneUnlessArmed self.old → IsAloneUnlessArmed self.new) }
        ensures finished { IfOk result (λ turn. Finished B.Board
            self.old board.old self.new board.new turn) }
        ensures losses { (b : List ℕ) (events : List Received) (frames : List SentFrame) (m : ℕ) →
            (B.tells board.old → StandsForRun self.old b events frames m) →
            Passes B.Board board.old board.new (SafeSince self.old.budget b events frames m)
            (ByResult result (SafeSince self.old.budget b events frames (m + 1))
            (SafeSince self.old.budget b events frames m)) }
        ensures geometry { B.sector_bytes board.new ≡ B.sector_bytes board.old }
        ensures told { B.tells board.new → B.tells board.old }

        // the guard count rises by at most two for each line issued
        ensures guard { (count : ℕ) (b : List ℕ) (events : List Received) (frames : List SentFrame)
            (m : ℕ) →
            (B.tells board.old → StaysWithin count self.old b events frames m) →
            Passes B.Board board.old board.new (RisesWithin self.old.budget count b events)
            (RisesWithin self.old.budget count b events) }

        // an event that was cut short was received or not, and some frames were sent
        ensures cut_lists { OnErr result ((e : List Received) (f : List SentFrame) →
            B.has_lists board.old e f →
            (event : Option Received) × (sent : List SentFrame) ×
            B.has_lists board.new (e ++ option_to_list event) (f ++ sent)) }

        ensures never_memory { IfErr result (λ e. OnMemory e ⊥) }
        ensures never_foreign { IfErr result (λ e. OnForeign e (λ place. ⊥)) }
        ensures worn { IfErr result (λ e. OnWorn e (λ count. (count ≡ GUARD_HALFWORDS) ×
            (bytes : _) × IsWorn B.Board board.new bytes)) }
        ensures worn_next { IfErr result (λ e. OnWorn e (λ count. IsAloneUnlessArmed self.old →
            IsWornForNext B.Board board.new self.new.lines
            ⊎ WasArmed B.Board self.old board.old board.new)) }
        ensures worn_lines { IfErr result (λ e. OnWorn e (λ n.
            WearsIn B.Board self.old board.old board.new)) }
        // where the guard count is 8,192 at the start no sector is voided, neither for the next
        // entry nor, once the vehicle isn't armed any more, for a store that was spilled
        ensures used_up { armed_in self.old ≡ false →
            NextVoids false self.old.lines.store self.old.lines.pending →
            guard_of self.old.lines.store ≡ GUARD_HALFWORDS → IfOk result (λ turn. ⊥) }
        ensures used_up_spilled { armed_in self.old ≡ true →
            IsTrue (is_spilled self.old.lines.store) →
            guard_of self.old.lines.store ≡ GUARD_HALFWORDS →
            IfOk result (λ turn. armed_in self.new ≡ true) }
        ensures fault { IfErr result (λ e. OnFault e (λ kind. kind ≡ Read ⊎ (kind ≡ Flash ⊎
            (kind ≡ Recv ⊎ kind ≡ Send)))) }
        ensures counts { B.faults board.new
            ≡ counts_after (told_by fault_in result) (B.faults board.old) }
    {
        frames_are_read();
        let event = match board.recv(buffer) {
            Ok(event) => event,
            Err(_) => return Err(NodeError::Fault(Fault::Recv)),
        };
        self.answer_event(board, event, buffer)?;
        let armed = self.core.armed();
        self.flush(board, 8, armed)?;
        Ok(turn_of(event))
    }

    /// Puts all pending lines.
    pub fn close<B: Board>(mut self, board: &mut B) -> Result<(), NodeError>
        requires fits { Fits B.Board board.old self }

        ensures done { OnOk result (B.tells board.new →
            (b : List ℕ) (r : Run) (frames : List SentFrame) →
            StandsAt self b r frames → Stands (B.words board.new) (after b r.issued)) }
        ensures lists { (e : List Received) (f : List SentFrame) → B.has_lists board.old e f →
            B.has_lists board.new e f }
        ensures losses { (b : List ℕ) (events : List Received) (frames : List SentFrame) (m : ℕ) →
            (B.tells board.old → StandsForRun self b events frames m) →
            Passes B.Board board.old board.new (SafeSince self.budget b events frames m)
            (SafeSince self.budget b events frames m) }
        ensures geometry { B.sector_bytes board.new ≡ B.sector_bytes board.old }
        ensures told { B.tells board.new → B.tells board.old }

        // where the vehicle is armed nothing is erased
        ensures still { armed_in self ≡ true → ErasesNothing B.Board board.old board.new }

        // the guard count rises by at most two for each line that was pending
        ensures guard { (count : ℕ) (b : List ℕ) (events : List Received) (frames : List SentFrame)
            (m : ℕ) →
            (B.tells board.old → StaysWithin count self b events frames m) →
            Passes B.Board board.old board.new (RisesWithin self.budget count b events)
            (RisesWithin self.budget count b events) }

        ensures never_memory { IfErr result (λ e. OnMemory e ⊥) }
        ensures never_foreign { IfErr result (λ e. OnForeign e (λ place. ⊥)) }
        ensures worn { IfErr result (λ e. OnWorn e (λ count. (count ≡ GUARD_HALFWORDS) ×
            (bytes : _) × IsWorn B.Board board.new bytes)) }
        ensures worn_next { IfErr result (λ e. OnWorn e (λ count. IsAloneUnlessArmed self →
            (lines : Lines) × IsWornForNext B.Board board.new lines)) }
        ensures worn_lines { IfErr result (λ e. OnWorn e (λ n. B.tells board.new →
            (count : ℕ) (b : List ℕ) (events : List Received) (frames : List SentFrame) (m : ℕ) →
            StaysWithin count self b events frames m → MayWear self.budget count b events)) }
        // always where a sector is to be voided and the guard count is 8,192: so at the start, and
        // at none of the entries that were put
        ensures used_up { armed_in self ≡ false → PendingVoids self.lines →
            guard_of self.lines.store ≡ GUARD_HALFWORDS → IfOk result (λ done. ⊥) }
        ensures unworn { OnOk result
            (AllUnworn B.Board (armed_in self) self.lines board.new) }
        ensures fault { IfErr result (λ e. OnFault e (λ kind. kind ≡ Read ⊎ kind ≡ Flash)) }
        ensures counts { B.faults board.new
            ≡ counts_after (told_by fault_in result) (B.faults board.old) }
    {
        let armed = self.core.armed();
        self.flush_all(board, armed)
    }

    /// How many frames were sent since the opening.
    pub fn frames(&self) -> u64
        ensures { result ≡ self.now.frames }
    {
        self.frames
    }

    /// How many lines were issued since the opening, those of boot among them.
    pub fn issued(&self) -> u64
        ensures { result ≡ self.now.issued }
    {
        self.issued
    }
}
