//! Pending lines put, and new ones issued. What is put while armed erases nothing.
ghost use Rattle.std.specs.Prelude.{◌≡◌, ◌<◌, ◌≤◌, ◌-◌, List, ◌++◌, [], length, true, OnOk};
ghost use Rattle.flash_traits.specs.Calls.{ErasesNothing};
ghost use Rattle.flash_traits.specs.Losses.{Received, SentFrame};
ghost use Rattle.storage_lines.specs.declared.lines.TheConstants.{BATCH_LINES};
ghost use Rattle.block_store.specs.Refusals.{OnNoRoom};
ghost use Rattle.block_store.specs.Store.{Fits};
ghost use Rattle.dirty_lines.specs.Lines.{lines_of};
ghost use Rattle.storage_lines.specs.Bytes.{AreInside};
ghost use Rattle.vehicle_core.specs.declared.orders.Need.TheVariants as Need;
ghost use Rattle.vehicle_node.specs.Steps.Calls.{Keeps, OfFlash};
ghost use Rattle.vehicle_node.specs.Steps.Answering.{IsErrorOf, HasRoom, FlushDone, CompactDone, SettleDone, IssueDone};

use crate::{Node, NodeError, ROOM_FROM};
use block_store::PutError;
use flash_traits::Board;
use storage_lines::Batch;
use vehicle_core::Need;

fn error_of(error: PutError) -> NodeError
    requires never_full { OnNoRoom error (λ room. ⊥) }
    ensures { IsErrorOf error result }
{
    match error {
        PutError::Fault(kind) => NodeError::Fault(kind),
        PutError::NoRoom { .. } => unreachable!(),
        PutError::Worn { count } => NodeError::Worn { count },
    }
}

impl Node {
    /// Puts at least the n oldest pending lines, or all where there are fewer.
    pub(crate) fn flush<B: Board>(
        &mut self,
        board: &mut B,
        n: usize,
        armed: bool,
    ) -> Result<(), NodeError>
        requires fits { Fits B.Board board.old self.old.lines.store }
        requires room { HasRoom armed self.old }
        ensures done { FlushDone B.Board n armed self.old board.old result self.new board.new }
        ensures fits { OnOk result (Fits B.Board board.new self.new.lines.store) }
        ensures lists { (e : List Received) (f : List SentFrame) → B.has_lists board.old e f →
            B.has_lists board.new e f }
        ensures still { armed ≡ true → ErasesNothing B.Board board.old board.new }
        ensures keeps { Keeps B.Board OfFlash board.old result board.new }
    {
        match self.lines.flush(board, n, armed) {
            Ok(()) => Ok(()),
            Err(error) => Err(error_of(error)),
        }
    }

    /// Puts all pending lines.
    pub(crate) fn flush_all<B: Board>(
        &mut self,
        board: &mut B,
        armed: bool,
    ) -> Result<(), NodeError>
        requires fits { Fits B.Board board.old self.old.lines.store }
        requires room { HasRoom armed self.old }
        ensures done { FlushDone B.Board (length self.old.lines.pending) armed
            self.old board.old result self.new board.new }
        ensures nothing { OnOk result (self.new.lines.pending ≡ []) }
        ensures fits { OnOk result (Fits B.Board board.new self.new.lines.store) }
        ensures lists { (e : List Received) (f : List SentFrame) → B.has_lists board.old e f →
            B.has_lists board.new e f }
        ensures still { armed ≡ true → ErasesNothing B.Board board.old board.new }
        ensures keeps { Keeps B.Board OfFlash board.old result board.new }
    {
        let pending = self.lines.pending();
        self.flush(board, pending, armed)
    }

    /// Makes the store stand alone.
    fn compact<B: Board>(&mut self, board: &mut B) -> Result<(), NodeError>
        requires fits { Fits B.Board board.old self.old.lines.store }
        ensures done { CompactDone B.Board self.old board.old result self.new board.new }
        ensures fits { OnOk result (Fits B.Board board.new self.new.lines.store) }
        ensures keeps { Keeps B.Board OfFlash board.old result board.new }
    {
        match self.lines.compact(board) {
            Ok(()) => Ok(()),
            Err(error) => Err(error_of(error)),
        }
    }

    /// Puts all pending lines, and makes the store stand alone unless the vehicle stays armed.
    fn put_all<B: Board>(&mut self, board: &mut B, armed: bool) -> Result<(), NodeError>
        requires fits { Fits B.Board board.old self.old.lines.store }
        requires room { HasRoom armed self.old }
        ensures done { SettleDone B.Board Need.FlushAll armed
            self.old board.old result self.new board.new }
        ensures fits { OnOk result (Fits B.Board board.new self.new.lines.store) }
        ensures keeps { Keeps B.Board OfFlash board.old result board.new }
    {
        self.flush_all(board, armed)?;
        if armed { Ok(()) } else { self.compact(board) }
    }

    /// Does what has to be done before the replies of an act are sent.
    pub(crate) fn settle<B: Board>(
        &mut self,
        board: &mut B,
        need: Need,
        armed: bool,
    ) -> Result<(), NodeError>
        requires fits { Fits B.Board board.old self.old.lines.store }
        requires room { HasRoom armed self.old }
        ensures done { SettleDone B.Board need armed self.old board.old result self.new board.new }
        ensures fits { OnOk result (Fits B.Board board.new self.new.lines.store) }
        ensures keeps { Keeps B.Board OfFlash board.old result board.new }
    {
        match need {
            Need::Nothing => Ok(()),
            Need::FlushAll => self.put_all(board, armed),
        }
    }

    /// Puts pending lines where they are so many that those of a change might not fit after them.
    fn make_room<B: Board>(&mut self, board: &mut B, armed: bool) -> Result<(), NodeError>
        requires fits { Fits B.Board board.old self.old.lines.store }
        requires room { HasRoom armed self.old }
        ensures done { FlushDone B.Board (length self.old.lines.pending - ROOM_FROM) armed
            self.old board.old result self.new board.new }
        ensures room { OnOk result (length self.new.lines.pending ≤ ROOM_FROM) }
        ensures few { OnOk result (length self.old.lines.pending ≤ ROOM_FROM →
            self.new ≡ self.old) }
        ensures fits { OnOk result (Fits B.Board board.new self.new.lines.store) }
        ensures keeps { Keeps B.Board OfFlash board.old result board.new }
    {
        let pending = self.lines.pending();
        if pending > ROOM_FROM {
            self.flush(board, pending - ROOM_FROM, armed)
        } else {
            Ok(())
        }
    }

    /// Appends lines to those that are pending, where there is room.
    fn append(&mut self, batch: &Batch)
        requires inside { AreInside batch.now.items }
        requires few { length batch.now.items ≤ BATCH_LINES }
        requires room { length self.old.lines.pending ≤ ROOM_FROM }
        ensures issued { self.new
            ≡ record self.old {
              lines = lines_of self.old.lines.store
                  (self.old.lines.pending ++ batch.now.items);
            } }
    {
        match self.lines.issue(batch) {
            Ok(()) => {}
            Err(_) => unreachable!(),
        }
    }

    /// Issues the lines of a change. Where there are any, room is made for them before.
    pub(crate) fn issue<B: Board>(
        &mut self,
        board: &mut B,
        batch: &Batch,
        armed: bool,
    ) -> Result<(), NodeError>
        requires fits { Fits B.Board board.old self.old.lines.store }
        requires room { HasRoom armed self.old }
        requires inside { AreInside batch.now.items }
        requires few { length batch.now.items ≤ BATCH_LINES }
        ensures done { IssueDone B.Board armed batch.now.items self.old board.old
            result self.new board.new }
        ensures fits { OnOk result (Fits B.Board board.new self.new.lines.store) }
        ensures keeps { Keeps B.Board OfFlash board.old result board.new }
    {
        if batch.is_empty() {
            return Ok(());
        }
        self.make_room(board, armed)?;
        self.append(batch);
        Ok(())
    }
}
