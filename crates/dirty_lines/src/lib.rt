//! Lines that were issued and aren't put yet, oldest first, over a block store.
#![tactic(auto)]

ghost use Rattle.std.specs.Prelude.{◌≡◌, ◌⊎◌, ◌+◌, ◌*◌, ◌<◌, ◌≤◌, ◌↔◌, ◌++◌, [], ◌∷◌, List, length, true, false, IsTrue, IsFalse, IsOk, IsErr, IfOk, IfErr, OnOk, OnErr};
ghost use Rattle.flash_traits.specs.declared.numbers.TheConstants.{GUARD_HALFWORDS};
ghost use Rattle.flash_traits.specs.declared.board.Fault.TheVariants.{Read, Flash};
ghost use Rattle.flash_traits.specs.Losses.{ByResult};
ghost use Rattle.flash_traits.specs.Calls.{Changes, ErasesNothing};
ghost use Rattle.flash_traits.specs.Causes.{counts_after, told_by};
ghost use Rattle.flash_traits.specs.Counts.{raised_by};
ghost use Rattle.storage_lines.specs.declared.lines.LineWrite.{LineWrite};
ghost use Rattle.storage_lines.specs.declared.lines.TheConstants.{STORAGE_BYTES};
ghost use Rattle.sector_image.specs.FirstBad.{FirstBad};
ghost use Rattle.sector_image.specs.Stands.{Stands, IsReadAs, is_alone as reads_alone, is_due, count_in, count_after};
ghost use Rattle.sector_image.specs.Losses.{KeepsBytes};
ghost use Rattle.sector_switch.specs.States.{CanServe, HomeAfter};
ghost use Rattle.block_store.specs.declared.PutError.TheVariants.{NoRoom};
ghost use Rattle.block_store.specs.Store.{Store, Fits, durable_of, is_alone, is_spilled, is_spent, guard_of, guard_ahead, room_of, home_free, switch_leaves, OnHome};
ghost use Rattle.block_store.specs.Refusals.{OnMemory, OnOpenFault, open_fault_in, put_fault_in, OnOpenForeign, OnOpenWorn, OnFault, OnWorn, OnNoRoom, OnSpending, OpenLeavesAlone, IsWorn, IsWornWith};
ghost use Rattle.dirty_lines.specs.Lines.{Lines, lines_of, current_of};
ghost use Rattle.storage_lines.specs.Bytes.{AreInside};
ghost use Rattle.dirty_lines.specs.Entries.{Wrote, IsFewest, CutIntoEntries, joined};
ghost use Rattle.dirty_lines.specs.Wearing.{NoneWears};
ghost use Rattle.dirty_lines.specs.Losses.{PutsFirst, MayPutFirst, MayPutNext, NextExceeds, NextVoids, IsWornForNext, IsWornAt};
ghost use Rattle.dirty_lines.specs.Steps.Flushing.{HasPutEntries, IsHeld, Refuses};

mod runs;

use crate::runs::{apply_all, longest_run};
use block_store::{BlockStore, OpenError, PutError};
use circular_buffer::HeapCircularBuffer;
use flash_traits::Board;
use std::alloc::Global;
use std::marker::Model;
use storage_lines::{Batch, LineWrite, STORAGE_BYTES};
use thiserror::Error;

/// The most pending lines.
pub const PENDING_LINES: usize = 2048;

/// The limit has this number.
pub fn limits()
    ensures { PENDING_LINES ≡ 2048 }
{}

/// The lines would not fit behind those that are pending.
#[derive(Clone, Copy, Debug, PartialEq, Eq, Drop, Error)]
#[error("the lines don't fit behind those that are pending")]
pub struct Full;

/// Pending lines over a store.
#[derive(Drop)]
pub struct DirtyLines {
    store: BlockStore,
    current: Vec<u8>,
    pending: HeapCircularBuffer<LineWrite>,
}

impl Model for DirtyLines {
    ghost use Rattle.dirty_lines.specs.Lines.{Lines};
    ghost use Rattle.dirty_lines.specs.Steps.Inside.{IsCurrent};

    ghost Value = { Lines };

    ghost view = { λ lines. record { store = lines.store; pending = lines.pending.items } };

    ghost invariant = { IsCurrent };
}

impl DirtyLines {
    /// Opens the store, with nothing pending. All memory is taken before the first call of the
    /// board.
    pub fn open<B: Board>(alloc: Global, board: &mut B) -> Result<DirtyLines, OpenError>
        requires attached { CanServe (B.sector_bytes board.old) }
        ensures fits { IfOk result (λ lines. Fits B.Board board.new lines.store) }
        ensures alone { IfOk result (λ lines. IsTrue (is_alone lines.store)) }
        ensures nothing { IfOk result (λ lines. lines.pending ≡ []) }
        ensures stands { IfOk result (λ lines. B.tells board.new
            → Stands (B.words board.old) (durable_of lines.store)) }
        ensures size { IfOk result (λ lines. length (durable_of lines.store) ≡ STORAGE_BYTES) }
        ensures changes { Changes B.Board board.old board.new (KeepsBytes 2) (KeepsBytes 2) }

        // the guard count rises by two where home is full, and by one where a sector is void;
        // nothing is done to an image that stands alone
        ensures guard { IfOk result (λ lines. B.tells board.new → (reading : _)
            → IsReadAs (B.words board.old) reading → guard_of lines.store ≡ count_after reading) }
        ensures idle { B.tells board.new → (reading : _) → IsReadAs (B.words board.old) reading
            → IsTrue (reads_alone reading) → B.moment board.new ≡ B.moment board.old }

        // home has the log that was read, or no more than its entries and a copy of each chunk that
        // was left to copy
        ensures copied { IfOk result (λ lines. B.tells board.new → (reading : _)
            → IsReadAs (B.words board.old) reading → OnHome lines.store (HomeAfter reading)) }

        // words that are no image are left alone
        ensures left_alone { B.tells board.new → (place : _) → FirstBad (B.words board.old) place
            → OpenLeavesAlone B.Board board.old board.new result }
        ensures foreign { IfErr result (λ e. OnOpenForeign e (λ place. B.tells board.new
            → FirstBad (B.words board.old) place)) }
        ensures foreign_idle { IfErr result (λ e. OnOpenForeign e
            (λ place. B.moment board.new ≡ B.moment board.old)) }

        // exactly where home is full and the count is 8,192
        ensures worn { IfErr result (λ e. OnOpenWorn e (λ count. (count ≡ GUARD_HALFWORDS)
            × (B.tells board.new → (reading : _) × IsReadAs (B.words board.old) reading
            × IsTrue (is_due reading) × (count_in reading ≡ GUARD_HALFWORDS)))) }
        ensures worn_copied { IfErr result (λ e. OnOpenWorn e (λ count. (bytes : _)
            × IsWorn B.Board board.new bytes)) }
        ensures used_up { B.tells board.new → (reading : _) → IsReadAs (B.words board.old) reading
            → IsTrue (is_due reading) → count_in reading ≡ GUARD_HALFWORDS → IfOk result (λ _. ⊥) }

        ensures memory { IfErr result (λ e. OnMemory e (board.new ≡ board.old)) }
        ensures fault { IfErr result (λ e. OnOpenFault e (λ kind. kind ≡ Read ⊎ kind ≡ Flash)) }
        ensures counts { B.faults board.new
            ≡ counts_after (told_by open_fault_in result) (B.faults board.old) }
        ensures erases_once { (B.moment board.new).erases
            ≤ raised_by 1 (B.moment board.old).erases }
    {
        let (Ok(pending), Ok(mut current)) = (
            HeapCircularBuffer::with_capacity(alloc, PENDING_LINES),
            vec![in alloc; 0u8; STORAGE_BYTES],
        ) else {
            return Err(OpenError::Memory);
        };
        let store = BlockStore::open(alloc, board)?;
        current.copy_from_slice(store.durable());
        Ok(DirtyLines {
            store,
            current,
            pending,
        })
    }

    /// The storage bytes with all pending lines, 15,360.
    pub fn current(&self) -> &[u8]
        ensures bytes { result.now ≡ current_of self.now }
        ensures size { length result.now ≡ STORAGE_BYTES }
    {
        &self.current
    }

    /// How many lines are pending.
    pub fn pending(&self) -> usize
        ensures count { result ≡ length self.now.pending }
        ensures most { result ≤ PENDING_LINES }
    {
        self.pending.len()
    }

    /// Appends the lines of a change, and applies them to what is current.
    pub fn issue(&mut self, batch: &Batch) -> Result<(), Full>
        requires inside { AreInside batch.now.items }
        ensures full { IsErr result
            ↔ (PENDING_LINES < length self.old.pending + length batch.now.items) }
        ensures issued { OnOk result (self.new
            ≡ lines_of self.old.store (self.old.pending ++ batch.now.items)) }
        ensures unchanged { OnErr result (self.new ≡ self.old) }
    {
        if batch.len() > PENDING_LINES - self.pending.len() {
            return Err(Full);
        }
        apply_all(batch.as_slice(), &mut self.current);
        self.pending.fill_from_slice(batch.as_slice());
        Ok(())
    }

    /// Puts at least the n oldest pending lines, or all where there are fewer, in entries of up to
    /// eight adjacent lines each. A loss inside leaves the bytes of before with a prefix of these
    /// entries.
    pub fn flush<B: Board>(&mut self, board: &mut B, n: usize, armed: bool) -> Result<(), PutError>
        requires fits { Fits B.Board board.old self.old.store }

        // a prefix of the pending lines was put, in whole entries: at Ok the fewest that hold n
        // lines, and at any refusal fewer
        ensures written { (entries : List (List LineWrite)) × Wrote entries armed self.old self.new
            × OnOk result (IsFewest n entries self.new.pending)
            × OnErr result (length (joined entries) < n) }
        ensures few { length self.old.pending < length self.new.pending + n + 8 }
        ensures still { OnOk result (self.new.pending ≡ self.old.pending
            → (self.new ≡ self.old) × (board.new ≡ board.old)) }
        ensures left { OnErr result (0 < length self.new.pending) }

        ensures fits { OnOk result (Fits B.Board board.new self.new.store) }
        ensures alone { OnOk result (armed ≡ false → IsTrue (is_alone self.old.store)
            → IsTrue (is_alone self.new.store)) }
        ensures changes { Changes B.Board board.old board.new (MayPutFirst self.old.pending)
            (ByResult result (PutsFirst 0 self.old.pending self.new.pending)
            (MayPutNext self.old.pending self.new.pending)) }
        ensures erases { armed ≡ true → ErasesNothing B.Board board.old board.new }
        ensures erased { (entries : List (List LineWrite))
            × CutIntoEntries entries self.new.pending self.old.pending
            × OnOk result ((B.moment board.new).erases
            ≤ raised_by (length entries) (B.moment board.old).erases)
            × OnErr result ((B.moment board.new).erases
            ≤ raised_by (length entries + 1) (B.moment board.old).erases) }

        // exactly where the store is armed and spilled and the next entry's bytes exceed the room
        ensures no_room { IfErr result (λ e. OnNoRoom e (λ room. (armed ≡ true)
            × Fits B.Board board.new self.new.store × IsTrue (is_spilled self.new.store)
            × (room ≡ room_of self.new.store) × NextExceeds room self.new.pending)) }

        // nothing is put that exceeds the room
        ensures too_large { armed ≡ true → IsTrue (is_spilled self.old.store)
            → NextExceeds (room_of self.old.store) self.old.pending → 0 < n
            → IfErr result (λ e. e ≡ NoRoom (room_of self.old.store)) × IfOk result (λ _. ⊥) }

        // where a sector is to be voided for the next entry and the guard count is 8,192: home
        // lacked room for it, or the store was spilled before the call
        ensures worn { IfErr result (λ e. OnWorn e (λ count. (count ≡ GUARD_HALFWORDS)
            × (armed ≡ false)
            × IsWorn B.Board board.new self.new.store.bytes)) }
        ensures worn_next { IfErr result (λ e. OnWorn e
            (λ count. IsWornForNext B.Board board.new self.new
            ⊎ (IsTrue (is_spilled self.old.store) × (self.new.pending ≡ self.old.pending)))) }
        ensures worn_due { IfErr result (λ e. OnWorn e (λ count. (entries : List (List LineWrite))
            × (last : Store) × CutIntoEntries entries self.new.pending self.old.pending
            × NoneWears armed entries self.old.store last
            × IsWornAt B.Board board.new armed last self.new)) }
        ensures used_up { NextVoids armed self.old.store self.old.pending
            → guard_of self.old.store ≡ GUARD_HALFWORDS → 0 < n → IfOk result (λ _. ⊥) }

        ensures spent { IfErr result (λ e. OnSpending e (IsTrue (is_spent self.new.store))) }
        ensures fault { IfErr result (λ e. OnFault e (λ kind. kind ≡ Read ⊎ kind ≡ Flash)) }
        ensures counts { B.faults board.new
            ≡ counts_after (told_by put_fault_in result) (B.faults board.old) }
    {
        let mut left = n;
        while left > 0 && !self.pending.is_empty() {
            left = left.saturating_sub(self.put_front(board, armed)?);
        }
        Ok(())
    }

    /// Puts the first entry of the pending lines, and gives the number of its lines.
    fn put_front<B: Board>(&mut self, board: &mut B, armed: bool) -> Result<usize, PutError>
        requires some { 0 < length self.old.pending }
        requires fits { Fits B.Board board.old self.old.store }
        ensures put { IfOk result (λ lines. (entry : List LineWrite) × (lines ≡ length entry)
            × (1 ≤ lines)
            × HasPutEntries B.Board armed (entry ∷ []) self.old self.new board.old board.new) }
        ensures taken { OnOk result (Refuses armed self.old → ⊥) }
        ensures held { OnErr result (IsHeld self.old self.new) }
        ensures changes { OnErr result (Changes B.Board board.old board.new
            (MayPutFirst self.old.pending)
            (MayPutNext self.old.pending self.old.pending)) }
        ensures erases { armed ≡ true → ErasesNothing B.Board board.old board.new }
        ensures erased { (B.moment board.new).erases ≤ raised_by 1 (B.moment board.old).erases }
        ensures no_room { IfErr result (λ e. OnNoRoom e (λ room. (armed ≡ true)
            × Fits B.Board board.new self.new.store × IsTrue (is_spilled self.new.store)
            × (room ≡ room_of self.new.store) × NextExceeds room self.new.pending)) }
        ensures too_large { armed ≡ true → IsTrue (is_spilled self.old.store)
            → NextExceeds (room_of self.old.store) self.old.pending
            → IfErr result (λ e. e ≡ NoRoom (room_of self.old.store)) }
        ensures worn { IfErr result (λ e. OnWorn e (λ count. (count ≡ GUARD_HALFWORDS)
            × (armed ≡ false)
            × IsWorn B.Board board.new self.new.store.bytes)) }
        ensures worn_next { IfErr result (λ e. OnWorn e
            (λ count. IsWornForNext B.Board board.new self.new
            ⊎ IsTrue (is_spilled self.old.store))) }
        ensures worn_due { IfErr result (λ e. OnWorn e
            (λ count. IsWornAt B.Board board.new armed self.old.store self.new)) }
        ensures spent { IfErr result (λ e. OnSpending e (IsTrue (is_spent self.new.store))) }
        ensures fault { IfErr result (λ e. OnFault e (λ kind. kind ≡ Read ⊎ kind ≡ Flash)) }
        ensures counts { B.faults board.new
            ≡ counts_after (told_by put_fault_in result) (B.faults board.old) }
    {
        let entry = longest_run(&self.pending);
        self.store.put(board, entry.as_slice(), armed)?;
        self.pending
            .truncate_front(self.pending.len() - entry.len());
        Ok(entry.len())
    }

    /// Makes a spilled store stand alone, and does nothing else. A loss inside leaves the bytes of
    /// before.
    pub fn compact<B: Board>(&mut self, board: &mut B) -> Result<(), PutError>
        requires fits { Fits B.Board board.old self.old.store }

        ensures fits { OnOk result (Fits B.Board board.new self.new.store) }
        ensures alone { OnOk result (IsTrue (is_alone self.new.store)) }
        ensures pending { self.new.pending ≡ self.old.pending }
        ensures durable { durable_of self.new.store ≡ durable_of self.old.store }
        ensures idle { IsTrue (is_alone self.old.store) → IsOk result × (self.new ≡ self.old)
            × (board.new ≡ board.old) }
        ensures guard { OnOk result (guard_of self.new.store ≡ guard_ahead self.old.store) }
        ensures copied { OnOk result (IsTrue (is_spilled self.old.store)
            → switch_leaves self.old.store ≤ room_of self.new.store) }
        ensures changes { Changes B.Board board.old board.new (KeepsBytes 2) (KeepsBytes 2) }
        ensures never_full { IfErr result (λ e. OnNoRoom e (λ room. ⊥)) }

        // exactly where the store is spilled and the guard count is 8,192
        ensures worn { IfErr result (λ e. OnWorn e (λ count. (count ≡ GUARD_HALFWORDS)
            × (guard_of self.old.store ≡ GUARD_HALFWORDS) × IsTrue (is_spilled self.old.store))) }
        ensures worn_copied { IfErr result (λ e. OnWorn e (λ count.
            IsWornWith B.Board board.new self.new.store.bytes (home_free self.old.store))) }
        ensures used_up { IsTrue (is_spilled self.old.store)
            → guard_of self.old.store ≡ GUARD_HALFWORDS
            → IfOk result (λ _. ⊥) }

        ensures spent { OnErr result (IsTrue (is_spent self.new.store)) }
        ensures fault { IfErr result (λ e. OnFault e (λ kind. kind ≡ Read ⊎ kind ≡ Flash)) }
        ensures counts { B.faults board.new
            ≡ counts_after (told_by put_fault_in result) (B.faults board.old) }
        ensures erases_once { (B.moment board.new).erases
            ≤ raised_by 1 (B.moment board.old).erases }
    {
        self.store.compact(board)
    }
}
