//! From one sector to the other.
ghost use Rattle.std.specs.Prelude.{◌≡◌, ◌≤◌, ◌+◌, ◌-◌, ◌*◌, IfOk, IfErr};
ghost use Rattle.flash_traits.specs.declared.numbers.TheConstants.{GUARD_HALFWORDS};
ghost use Rattle.flash_traits.specs.declared.board.Fault.{Fault};
ghost use Rattle.flash_traits.specs.declared.board.Fault.TheVariants.{Flash};
ghost use Rattle.flash_traits.specs.Calls.{Changes, ErasesNothing};
ghost use Rattle.flash_traits.specs.Causes.{HasCause, Rose};
ghost use Rattle.flash_traits.specs.Counts.{raised_by};
ghost use Rattle.flash_traits.specs.Budget.{header_bytes, copy_bytes, chunks};
ghost use Rattle.sector_image.specs.Losses.{KeepsBytes};
ghost use Rattle.sector_image.specs.Fits.{FitsAlone, FitsSpilled, free_of, left_chunks};
ghost use Rattle.sector_switch.specs.States.{taken_of, marked_from, spilled_from};
ghost use Rattle.block_store.specs.Store.{left_from_zeros};
ghost use Rattle.block_store.specs.Refusals.{OnWorn, IsWornWith};
ghost use Rattle.block_store.specs.Steps.Calls.{OnlyPrograms, FindsRoom};

use crate::PutError;
use flash_traits::{Board, Fault};
use sector_switch::{Alone, Images, Spilled};

/// Marks home full, and the other sector in use. A loss inside leaves the bytes of before.
pub(crate) fn spill<B: Board>(
    alone: Alone,
    board: &mut B,
    images: &mut Images,
) -> Result<Spilled, Fault>
    requires fits { FitsAlone B.Board board.old alone images.old }
    ensures whole { images.new.whole ≡ images.old.whole }
    ensures fits { IfOk result (λ spilled. FitsSpilled B.Board board.new spilled images.new) }
    ensures kept { IfOk result (λ spilled. spilled ≡ spilled_from (marked_from alone)) }
    ensures most { IfOk result (λ spilled. left_chunks spilled images.new ≤ chunks) }
    ensures left { IfOk result (λ spilled. left_chunks spilled images.new
        ≡ left_from_zeros images.old.whole) }
    ensures changes { Changes B.Board board.old board.new (KeepsBytes 0) (KeepsBytes 0) }
    ensures calls { OnlyPrograms B.Board board.old result board.new }
{
    let marked = alone.spill(board)?;
    let spilled = marked.open(board, images)?;
    Ok(spilled)
}

/// Makes the other sector home, and the one that was home available. A loss inside leaves the bytes
/// of before.
pub(crate) fn switch<B: Board>(
    spilled: Spilled,
    board: &mut B,
    images: &mut Images,
) -> Result<Alone, PutError>
    requires fits { FitsSpilled B.Board board.old spilled images.old }
    ensures whole { images.new.whole ≡ images.old.whole }
    ensures fits { IfOk result (λ alone. FitsAlone B.Board board.new alone images.new) }
    ensures free { IfOk result (λ alone. spilled.sector_bytes - taken_of spilled images.old
        ≤ free_of alone) }
    ensures guard { IfOk result (λ alone. alone.guard ≡ spilled.guard + 2) }
    ensures changes { Changes B.Board board.old board.new (KeepsBytes 2) (KeepsBytes 2) }
    ensures worn { IfErr result (λ e. OnWorn e (λ count. (count ≡ GUARD_HALFWORDS)
        × (spilled.guard ≡ GUARD_HALFWORDS))) }
    ensures worn_copied { IfErr result (λ e. OnWorn e
        (λ count. IsWornWith B.Board board.new images.new (free_of spilled))) }
    ensures used_up { spilled.guard ≡ GUARD_HALFWORDS → IfOk result (λ _. ⊥) }
    ensures erases_once { (B.moment board.new).erases ≤ raised_by 1 (B.moment board.old).erases }
    ensures calls { FindsRoom B.Board board.old result board.new }
{
    let alone = spilled.switch(board, images)?;
    Ok(alone)
}

/// From home alone to the other sector alone. A loss inside leaves the bytes of before.
pub(crate) fn turn<B: Board>(
    alone: Alone,
    board: &mut B,
    images: &mut Images,
) -> Result<Alone, PutError>
    requires fits { FitsAlone B.Board board.old alone images.old }
    ensures whole { images.new.whole ≡ images.old.whole }
    ensures fits { IfOk result (λ next. FitsAlone B.Board board.new next images.new) }
    ensures free { IfOk result (λ next. alone.sector_bytes
        - (header_bytes + copy_bytes * left_from_zeros images.old.whole) ≤ free_of next) }
    ensures room { IfOk result (λ next. copy_bytes ≤ free_of next) }
    ensures guard { IfOk result (λ next. next.guard ≡ alone.guard + 2) }
    ensures changes { Changes B.Board board.old board.new (KeepsBytes 2) (KeepsBytes 2) }
    ensures worn { IfErr result (λ e. OnWorn e (λ count. (count ≡ GUARD_HALFWORDS)
        × (alone.guard ≡ GUARD_HALFWORDS))) }
    ensures worn_copied { IfErr result (λ e. OnWorn e
        (λ count. IsWornWith B.Board board.new images.new (free_of alone))) }
    ensures used_up { alone.guard ≡ GUARD_HALFWORDS → IfOk result (λ _. ⊥) }
    ensures erases_once { (B.moment board.new).erases ≤ raised_by 1 (B.moment board.old).erases }
    ensures calls { FindsRoom B.Board board.old result board.new }
{
    let spilled = spill(alone, board, images)?;
    switch(spilled, board, images)
}
