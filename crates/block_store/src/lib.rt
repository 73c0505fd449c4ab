//! The storage as a store of entries: each put is in the image whole or not at all, whatever power
//! losses come.
#![tactic(auto)]

ghost use Rattle.std.specs.Prelude.{◌≡◌, ◌⊎◌, ◌+◌, ◌*◌, ◌<◌, ◌≤◌, ◌↔◌, length, true, false, IsTrue};
ghost use Rattle.std.specs.Prelude.{IsFalse, IsOk, IfOk, IfErr, OnOk, OnErr, IsErrOf};
ghost use Rattle.flash_traits.specs.Budget.{line_bytes};
ghost use Rattle.flash_traits.specs.declared.numbers.TheConstants.{GUARD_HALFWORDS};
ghost use Rattle.flash_traits.specs.declared.board.Fault.TheVariants.{Read, Flash};
ghost use Rattle.flash_traits.specs.Losses.{ByResult};
ghost use Rattle.flash_traits.specs.Calls.{Changes, ErasesNothing};
ghost use Rattle.flash_traits.specs.Causes.{counts_after, told_by};
ghost use Rattle.flash_traits.specs.Counts.{raised_by};
ghost use Rattle.storage_lines.specs.declared.lines.TheConstants.{STORAGE_BYTES};
ghost use Rattle.storage_lines.specs.Lines.{after};
ghost use Rattle.sector_image.specs.FirstBad.{FirstBad};
ghost use Rattle.sector_image.specs.Stands.{Stands, IsReadAs, is_alone as reads_alone, is_due};
ghost use Rattle.sector_image.specs.Stands.{count_in, count_after};
ghost use Rattle.sector_image.specs.Losses.{KeepsBytes};
ghost use Rattle.sector_switch.specs.States.{CanServe, HomeAfter};
ghost use Rattle.block_store.specs.declared.PutError.TheVariants.{NoRoom};
ghost use Rattle.block_store.specs.Store.{Store, Fits, AreOneEntry, durable_of, is_alone, is_spilled};
ghost use Rattle.block_store.specs.Store.{is_spent, guard_of, guard_ahead, room_of, free_of};
ghost use Rattle.block_store.specs.Store.{spare_of, home_free, switch_leaves, OnHome, entry_bytes};
ghost use Rattle.block_store.specs.Store.{lacks_room, Voids, raise};
ghost use Rattle.block_store.specs.Losses.{PutsLines, MayPutLines};
ghost use Rattle.block_store.specs.Refusals.{OnMemory, OnOpenFault, OnOpenForeign, OnOpenWorn, open_fault_in, put_fault_in};
ghost use Rattle.block_store.specs.Refusals.{OnFault, OnWorn, OnNoRoom, OnSpending};
ghost use Rattle.block_store.specs.Refusals.{OpenLeavesAlone, IsWorn, IsWornWith};

mod entry;
mod moves;
mod puts;

use entry::bytes_of;
use flash_traits::{Board, Fault, Region};
use moves::switch;
use puts::{put_armed, put_unarmed};
use sector_switch::{Alone, Images, RecoverError, Spilled, SwitchError, recover};
use std::alloc::{AllocError, Global};
use std::marker::Model;
use std::mem::replace;
use storage_lines::LineWrite;
use thiserror::Error;

/// Why a store wasn't opened.
#[derive(Clone, Copy, Debug, PartialEq, Eq, Drop, Error)]
pub enum OpenError {
    /// There is no memory. Nothing was asked of the board.
    #[error("there is no memory")]
    Memory,
    /// A read, a program or an erase failed.
    #[error("a call of the board failed")]
    Fault(Fault),
    /// The words are no image: this is the first foreign word, with its offset in halfwords.
    #[error("the word {word:04X} at offset {offset} is no part of an image")]
    Foreign {
        region: Region,
        offset: u32,
        word: u16,
    },
    /// A sector is to be voided and the guard row is used up.
    #[error("the guard row is used up at {count}")]
    Worn {
        count: u16,
    },
}

/// Why a put, a flush or a compaction wasn't done.
#[derive(Clone, Copy, Debug, PartialEq, Eq, Drop, Error)]
pub enum PutError {
    /// A read, a program or an erase failed.
    #[error("a call of the board failed")]
    Fault(Fault),
    /// The armed store is spilled, and has room for an entry of so many bytes at most.
    #[error("there is room for an entry of {room} bytes")]
    NoRoom { room: u32 },
    /// A sector is to be voided and the guard row is used up.
    #[error("the guard row is used up at {count}")]
    Worn { count: u16 },
}

impl From<Fault> for PutError {
    ghost use Rattle.block_store.specs.declared.PutError.TheVariants as put_error;

    ghost from_gives = { λ kind e. e ≡ put_error.Fault kind };

    fn from(kind: Fault) -> PutError {
        PutError::Fault(kind)
    }
}

impl From<SwitchError> for PutError {
    ghost use Rattle.block_store.specs.Steps.Errors.{puts_not};

    ghost from_gives = { λ switch e. e ≡ puts_not switch };

    fn from(switch: SwitchError) -> PutError {
        match switch {
            SwitchError::Fault(kind) => PutError::Fault(kind),
            SwitchError::Worn { count } => PutError::Worn { count },
        }
    }
}

impl From<AllocError> for OpenError {
    ghost use Rattle.block_store.specs.declared.OpenError.TheVariants as open_error;

    ghost from_gives = { λ _ e. e ≡ open_error.Memory };

    fn from(_: AllocError) -> OpenError {
        OpenError::Memory
    }
}

impl From<RecoverError> for OpenError {
    ghost use Rattle.block_store.specs.Steps.Errors.{opens_not};

    ghost from_gives = { λ recover e. e ≡ opens_not recover };

    fn from(recover: RecoverError) -> OpenError {
        match recover {
            RecoverError::Fault(kind) => OpenError::Fault(kind),
            RecoverError::Foreign {
                region,
                offset,
                word,
            } => OpenError::Foreign {
                region,
                offset,
                word,
            },
            RecoverError::Worn { count } => OpenError::Worn { count },
        }
    }
}

/// The state of the image.
#[derive(Debug, Drop)]
enum State {
    Alone(Alone),
    Spilled(Spilled),
    /// A call failed.
    Spent,
}

/// A store of entries over a board. Every call takes the board of the opening, which nobody else
/// changes in between.
#[derive(Debug, Drop)]
pub struct BlockStore {
    state: State,
    images: Images,
}

impl Model for BlockStore {
    ghost use Rattle.block_store.specs.Store.{Store};
    ghost use Rattle.block_store.specs.Steps.Inside.{state_of, HasBytesAndRoom};

    ghost Value = { Store };

    ghost view = { λ store. record { state = state_of store.state; bytes = store.images } };

    ghost invariant = { λ store. HasBytesAndRoom (state_of store.state) store.images };
}

impl BlockStore {
    /// Recovers the image and opens it. All memory is taken before the first call of the board.
    pub fn open<B: Board>(alloc: Global, board: &mut B) -> Result<BlockStore, OpenError>
        requires attached { CanServe (B.sector_bytes board.old) }
        ensures fits { IfOk result (λ store. Fits B.Board board.new store) }
        ensures alone { IfOk result (λ store. IsTrue (is_alone store)) }
        ensures stands { IfOk result (λ store. B.tells board.new
            → Stands (B.words board.old) (durable_of store)) }
        ensures size { IfOk result (λ store. length (durable_of store) ≡ STORAGE_BYTES) }
        ensures changes { Changes B.Board board.old board.new (KeepsBytes 2) (KeepsBytes 2) }

        // the guard count rises by two where home is full, and by one where a sector is void;
        // nothing is done to an image that stands alone
        ensures guard { IfOk result (λ store. B.tells board.new → (reading : _)
            → IsReadAs (B.words board.old) reading → guard_of store ≡ count_after reading) }
        ensures idle { B.tells board.new → (reading : _) → IsReadAs (B.words board.old) reading
            → IsTrue (reads_alone reading) → B.moment board.new ≡ B.moment board.old }

        // home has the log that was read, or no more than its entries and a copy of each chunk that
        // was left to copy
        ensures copied { IfOk result (λ store. B.tells board.new → (reading : _)
            → IsReadAs (B.words board.old) reading → OnHome store (HomeAfter reading)) }

        // words that are no image are left alone
        ensures left_alone { B.tells board.new → (place : _) → FirstBad (B.words board.old) place
            → OpenLeavesAlone B.Board board.old board.new result }
        ensures foreign { IfErr result (λ e. OnOpenForeign e (λ place. B.tells board.new
            → FirstBad (B.words board.old) place)) }
        ensures foreign_idle { IfErr result (λ e. OnOpenForeign e
            (λ place. B.moment board.new ≡ B.moment board.old)) }

        // exactly where home is full and the count is 8,192
        ensures worn { IfErr result (λ e. OnOpenWorn e (λ count. (count ≡ GUARD_HALFWORDS)
            × (B.tells board.new → (reading : _) × IsReadAs (B.words board.old) reading
            × IsTrue (is_due reading) × (count_in reading ≡ GUARD_HALFWORDS)))) }
        ensures worn_copied { IfErr result (λ e. OnOpenWorn e (λ count. (bytes : _)
            × IsWorn B.Board board.new bytes)) }
        ensures used_up { B.tells board.new → (reading : _) → IsReadAs (B.words board.old) reading
            → IsTrue (is_due reading) → count_in reading ≡ GUARD_HALFWORDS → IfOk result (λ _. ⊥) }

        ensures memory { IfErr result (λ e. OnMemory e (board.new ≡ board.old)) }
        ensures fault { IfErr result (λ e. OnOpenFault e (λ kind. kind ≡ Read ⊎ kind ≡ Flash)) }
        ensures counts { B.faults board.new
            ≡ counts_after (told_by open_fault_in result) (B.faults board.old) }
        ensures erases_once { (B.moment board.new).erases
            ≤ raised_by 1 (B.moment board.old).erases }
    {
        let mut images = Images::new(alloc)?;
        let alone = recover(board, &mut images)?;
        Ok(BlockStore {
            state: State::Alone(alone),
            images,
        })
    }

    /// The storage bytes that the image stands for, 15,360.
    pub fn durable(&self) -> &[u8]
        ensures bytes { result.now ≡ durable_of self.now }
        ensures size { length result.now ≡ STORAGE_BYTES }
    {
        self.images.whole()
    }

    /// The bytes that an entry may take: home's free bytes, and where the store is spilled the
    /// other sector's less what is kept for the copy; 0 where the store is spent.
    pub fn room(&self) -> u32
        ensures { result ≡ room_of self.now }
    {
        match &self.state {
            State::Alone(alone) => alone.free(),
            State::Spilled(spilled) => spilled.room(&self.images),
            State::Spent => 0,
        }
    }

    /// Whether a call has answered Worn or Fault. The board is then to be opened again.
    pub fn is_spent(&self) -> bool
        ensures { result ≡ is_spent self.now }
    {
        matches!(&self.state, State::Spent)
    }

    /// Whether the store is spilled and has no room for an entry of so many bytes.
    fn is_full(&self, size: u32) -> bool
        ensures { IsTrue result ↔ (IsTrue (is_spilled self.now) × (room_of self.now < size)) }
    {
        match &self.state {
            State::Spilled(spilled) => spilled.room(&self.images) < size,
            _ => false,
        }
    }

    /// Puts one entry of 1 to 8 adjacent lines. A loss inside leaves the bytes of before or those
    /// with all of these lines.
    ///
    /// A store that isn't armed switches sectors first where it has no room, and stands alone at
    /// the end. An armed one goes on in the other sector and erases nothing.
    pub fn put<B: Board>(
        &mut self,
        board: &mut B,
        lines: &[LineWrite],
        armed: bool,
    ) -> Result<(), PutError>
        requires fits { Fits B.Board board.old self.old }
        requires entry { AreOneEntry lines.now }

        ensures fits { OnOk result (Fits B.Board board.new self.new) }
        ensures put { OnOk result (durable_of self.new ≡ after (durable_of self.old) lines.now) }
        ensures kept { OnErr result (durable_of self.new ≡ durable_of self.old) }
        ensures alone { OnOk result (armed ≡ false → IsTrue (is_alone self.new)) }
        ensures stays { OnOk result (IsFalse (lacks_room self.old lines.now)
            → IsTrue (is_alone self.new)) }
        ensures spills { OnOk result (armed ≡ true → IsTrue (lacks_room self.old lines.now)
            → IsTrue (is_spilled self.new)) }
        ensures guard { OnOk result (guard_of self.new
            ≡ guard_of self.old + raise armed self.old lines.now) }
        ensures ahead { OnOk result (guard_ahead self.new ≤ guard_ahead self.old + 2) }

        // the entry takes its bytes once, and nothing else does but the copy of a switch
        ensures free { OnOk result (guard_of self.new ≡ guard_of self.old
            → free_of self.new + entry_bytes lines.now ≡ free_of self.old) }
        ensures copied { OnOk result (armed ≡ false → IsTrue (lacks_room self.old lines.now)
            → switch_leaves self.old ≤ room_of self.new + entry_bytes lines.now) }
        ensures spare { OnOk result (armed ≡ true
            → spare_of self.old ≤ spare_of self.new + line_bytes * length lines.now) }

        ensures changes { Changes B.Board board.old board.new
            (MayPutLines (raise armed self.old lines.now) lines.now)
            (ByResult result (PutsLines (raise armed self.old lines.now) lines.now)
            (MayPutLines (raise armed self.old lines.now) lines.now)) }
        ensures erases { raise armed self.old lines.now ≡ 0
            → ErasesNothing B.Board board.old board.new }

        // exactly where the store is armed and spilled and the entry's bytes exceed the room;
        // nothing changes
        ensures no_room { IfErr result (λ e. OnNoRoom e (λ room. (armed ≡ true)
            × IsTrue (is_spilled self.old) × (room ≡ room_of self.old)
            × (room < entry_bytes lines.now)
            × (self.new ≡ self.old) × (board.new ≡ board.old))) }
        ensures too_large { armed ≡ true → IsTrue (is_spilled self.old)
            → room_of self.old < entry_bytes lines.now
            → IfErr result (λ e. e ≡ NoRoom (room_of self.old)) × IfOk result (λ _. ⊥) }

        // exactly where a sector is to be voided and the guard count is 8,192; home has the free
        // bytes of before
        ensures worn { IfErr result (λ e. OnWorn e (λ count. (count ≡ GUARD_HALFWORDS)
            × (guard_of self.old ≡ GUARD_HALFWORDS) × Voids armed self.old lines.now)) }
        ensures worn_copied { IfErr result (λ e. OnWorn e (λ count.
            IsWornWith B.Board board.new self.new.bytes (home_free self.old))) }
        ensures used_up { Voids armed self.old lines.now → guard_of self.old ≡ GUARD_HALFWORDS
            → IfOk result (λ _. ⊥) }

        ensures spent { IfErr result (λ e. OnSpending e (IsTrue (is_spent self.new))) }
        ensures fault { IfErr result (λ e. OnFault e (λ kind. kind ≡ Read ⊎ kind ≡ Flash)) }
        ensures counts { B.faults board.new
            ≡ counts_after (told_by put_fault_in result) (B.faults board.old) }
        ensures erases_once { (B.moment board.new).erases
            ≤ raised_by 1 (B.moment board.old).erases }
    {
        if armed && self.is_full(2 + 8 * lines.len() as u32) {
            return Err(PutError::NoRoom { room: self.room() });
        }
        let entry = bytes_of(lines);
        let first = lines[0].line;
        let bytes = &entry[..8 * lines.len()];
        let state = replace(&mut self.state, State::Spent);
        let next = if armed {
            put_armed(state, board, &mut self.images, first, bytes)?
        } else {
            put_unarmed(state, board, &mut self.images, first, bytes)?
        };
        self.state = next;
        Ok(())
    }

    /// Makes a spilled store stand alone by the switch that is due, and does nothing else. A loss
    /// inside leaves the bytes of before.
    pub fn compact<B: Board>(&mut self, board: &mut B) -> Result<(), PutError>
        requires fits { Fits B.Board board.old self.old }

        ensures fits { OnOk result (Fits B.Board board.new self.new) }
        ensures alone { OnOk result (IsTrue (is_alone self.new)) }
        ensures durable { durable_of self.new ≡ durable_of self.old }
        ensures idle { IsTrue (is_alone self.old) → IsOk result × (self.new ≡ self.old)
            × (board.new ≡ board.old) }
        ensures guard { OnOk result (guard_of self.new ≡ guard_ahead self.old) }
        ensures copied { OnOk result (IsTrue (is_spilled self.old)
            → switch_leaves self.old ≤ room_of self.new) }
        ensures changes { Changes B.Board board.old board.new (KeepsBytes 2) (KeepsBytes 2) }
        ensures never_full { IfErr result (λ e. OnNoRoom e (λ room. ⊥)) }

        // exactly where the store is spilled and the guard count is 8,192
        ensures worn { IfErr result (λ e. OnWorn e (λ count. (count ≡ GUARD_HALFWORDS)
            × (guard_of self.old ≡ GUARD_HALFWORDS) × IsTrue (is_spilled self.old))) }
        ensures worn_copied { IfErr result (λ e. OnWorn e (λ count.
            IsWornWith B.Board board.new self.new.bytes (home_free self.old))) }
        ensures used_up { IsTrue (is_spilled self.old) → guard_of self.old ≡ GUARD_HALFWORDS
            → IfOk result (λ _. ⊥) }

        ensures spent { OnErr result (IsTrue (is_spent self.new)) }
        ensures fault { IfErr result (λ e. OnFault e (λ kind. kind ≡ Read ⊎ kind ≡ Flash)) }
        ensures counts { B.faults board.new
            ≡ counts_after (told_by put_fault_in result) (B.faults board.old) }
        ensures erases_once { (B.moment board.new).erases
            ≤ raised_by 1 (B.moment board.old).erases }
    {
        match replace(&mut self.state, State::Spent) {
            State::Alone(alone) => {
                self.state = State::Alone(alone);
                Ok(())
            }
            State::Spilled(spilled) => {
                let home = switch(spilled, board, &mut self.images)?;
                self.state = State::Alone(home);
                Ok(())
            }
            State::Spent => unreachable!(),
        }
    }
}
