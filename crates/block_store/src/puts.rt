//! A state that has room for an entry, and the entry.
ghost use Rattle.std.specs.Prelude.{◌≡◌, ◌+◌, ◌-◌, ◌*◌, ◌≤◌, length, true, false, IsTrue, IsFalse};
ghost use Rattle.std.specs.Prelude.{IfOk, IfErr, OnOk, OnErr};
ghost use Rattle.flash_traits.specs.declared.numbers.TheConstants.{GUARD_HALFWORDS};
ghost use Rattle.flash_traits.specs.declared.board.Fault.{Fault};
ghost use Rattle.flash_traits.specs.declared.board.Fault.TheVariants.{Read, Flash};
ghost use Rattle.flash_traits.specs.Losses.{ByResult};
ghost use Rattle.flash_traits.specs.Calls.{Changes, ErasesNothing};
ghost use Rattle.flash_traits.specs.Causes.{HasCause, Rose};
ghost use Rattle.flash_traits.specs.Counts.{raised_by};
ghost use Rattle.flash_traits.specs.Values.{put};
ghost use Rattle.flash_traits.specs.Budget.{header_bytes, copy_bytes};
ghost use Rattle.sector_log.specs.Appends.{AreWholeLines};
ghost use Rattle.sector_image.specs.Losses.{KeepsBytes, Puts, MayPut};
ghost use Rattle.sector_image.specs.Fits as fits;
ghost use Rattle.sector_image.specs.Fits.{FitsAlone};
ghost use Rattle.block_store.specs.Store.{FitsState, in_one_sector, in_both_sectors, guard_in};
ghost use Rattle.block_store.specs.Store.{room_in, free_in, spare_in, lacks_in, switch_leaves_in};
ghost use Rattle.block_store.specs.Store.{home_free_in};
ghost use Rattle.block_store.specs.Steps.Inside.{state_of, HasBytesAndRoom, due_in};
ghost use Rattle.block_store.specs.Steps.Entries.{PutsEntry, MayPutEntry};
ghost use Rattle.block_store.specs.Steps.Calls.{OnlyPrograms, FindsRoom};
ghost use Rattle.block_store.specs.Refusals.{OnWorn, IsWornWith};

use crate::moves::{spill, switch, turn};
use crate::{PutError, State};
use flash_traits::{Board, Fault};
use sector_switch::{Alone, Images};

/// The state in which an armed store takes an entry of so many bytes: home where it has room, and
/// else the other sector.
fn go_on<B: Board>(
    state: State,
    board: &mut B,
    images: &mut Images,
    size: u32,
) -> Result<State, Fault>
    requires fits { FitsState B.Board board.old (state_of state) images.old }
    requires inside { HasBytesAndRoom (state_of state) images.old }
    requires size { size ≤ copy_bytes }
    requires room { IsTrue (in_both_sectors (state_of state))
        → size ≤ room_in (state_of state) images.old }
    ensures whole { images.new.whole ≡ images.old.whole }
    ensures fits { IfOk result (λ next. FitsState B.Board board.new (state_of next) images.new) }
    ensures inside { IfOk result (λ next. HasBytesAndRoom (state_of next) images.new) }
    ensures room { IfOk result (λ next. size ≤ room_in (state_of next) images.new) }
    ensures stays { IfOk result (λ next. IsFalse (lacks_in (state_of state) size)
        → IsTrue (in_one_sector (state_of next))) }
    ensures spills { IfOk result (λ next. IsTrue (lacks_in (state_of state) size)
        → IsTrue (in_both_sectors (state_of next))) }
    ensures guard { IfOk result (λ next. guard_in (state_of next) ≡ guard_in (state_of state)) }
    ensures free { IfOk result (λ next. free_in (state_of next) ≡ free_in (state_of state)) }
    ensures spare { IfOk result (λ next. spare_in (state_of state) images.old
        ≤ spare_in (state_of next) images.new) }
    ensures changes { Changes B.Board board.old board.new (KeepsBytes 0) (KeepsBytes 0) }
    ensures calls { OnlyPrograms B.Board board.old result board.new }
{
    match state {
        State::Alone(alone) => {
            if size <= alone.free() {
                Ok(State::Alone(alone))
            } else {
                let other = spill(alone, board, images)?;
                Ok(State::Spilled(other))
            }
        }
        State::Spilled(spilled) => Ok(State::Spilled(spilled)),
        State::Spent => unreachable!(),
    }
}

/// One sector alone with room for an entry of so many bytes: home where it has room, and else the
/// other sector as home.
fn free_home<B: Board>(
    state: State,
    board: &mut B,
    images: &mut Images,
    size: u32,
) -> Result<Alone, PutError>
    requires fits { FitsState B.Board board.old (state_of state) images.old }
    requires inside { HasBytesAndRoom (state_of state) images.old }
    requires size { size ≤ copy_bytes }
    ensures whole { images.new.whole ≡ images.old.whole }
    ensures fits { IfOk result (λ alone. FitsAlone B.Board board.new alone images.new) }
    ensures room { IfOk result (λ alone. size ≤ fits.free_of alone) }
    ensures guard { IfOk result (λ alone. alone.guard
        ≡ guard_in (state_of state) + due_in (state_of state) size) }
    ensures copied { IfOk result (λ alone. IsTrue (lacks_in (state_of state) size)
        → switch_leaves_in (state_of state) images.old ≤ fits.free_of alone) }
    ensures free { IfOk result (λ alone. due_in (state_of state) size ≡ 0
        → fits.free_of alone + (alone.sector_bytes - header_bytes) ≡ free_in (state_of state)) }
    ensures changes { Changes B.Board board.old board.new
        (KeepsBytes (due_in (state_of state) size)) (KeepsBytes (due_in (state_of state) size)) }
    ensures erases { due_in (state_of state) size ≡ 0 → ErasesNothing B.Board board.old board.new }
    ensures worn { IfErr result (λ e. OnWorn e (λ count. (count ≡ GUARD_HALFWORDS)
        × (guard_in (state_of state) ≡ GUARD_HALFWORDS)
        × IsTrue (lacks_in (state_of state) size))) }
    ensures worn_copied { IfErr result (λ e. OnWorn e
        (λ count. IsWornWith B.Board board.new images.new (home_free_in (state_of state)))) }
    ensures used_up { IsTrue (lacks_in (state_of state) size)
        → guard_in (state_of state) ≡ GUARD_HALFWORDS → IfOk result (λ _. ⊥) }
    ensures erases_once { (B.moment board.new).erases ≤ raised_by 1 (B.moment board.old).erases }
    ensures calls { FindsRoom B.Board board.old result board.new }
{
    match state {
        State::Alone(alone) => {
            if alone.free() >= size {
                Ok(alone)
            } else {
                turn(alone, board, images)
            }
        }
        State::Spilled(spilled) => switch(spilled, board, images),
        State::Spent => unreachable!(),
    }
}

/// Puts an entry that has room.
fn append<B: Board>(
    state: State,
    board: &mut B,
    images: &mut Images,
    first: u16,
    bytes: &[u8],
) -> Result<State, Fault>
    requires fits { FitsState B.Board board.old (state_of state) images.old }
    requires inside { HasBytesAndRoom (state_of state) images.old }
    requires lines { AreWholeLines first bytes.now }
    requires room { 2 + length bytes.now ≤ room_in (state_of state) images.old }
    ensures fits { IfOk result (λ next. FitsState B.Board board.new (state_of next) images.new) }
    ensures inside { IfOk result (λ next. HasBytesAndRoom (state_of next) images.new) }
    ensures put { OnOk result (images.new.whole ≡ put (8 * first) bytes.now images.old.whole) }
    ensures err { OnErr result (images.new ≡ images.old) }
    ensures alone { IfOk result (λ next. in_one_sector (state_of next)
        ≡ in_one_sector (state_of state)) }
    ensures spilled { IfOk result (λ next. in_both_sectors (state_of next)
        ≡ in_both_sectors (state_of state)) }
    ensures guard { IfOk result (λ next. guard_in (state_of next) ≡ guard_in (state_of state)) }
    ensures free { IfOk result (λ next. free_in (state_of next) + 2 + length bytes.now
        ≡ free_in (state_of state)) }
    ensures spare { IfOk result (λ next. spare_in (state_of state) images.old
        ≤ spare_in (state_of next) images.new + 2 + length bytes.now) }
    ensures room { IfOk result (λ next. room_in (state_of state) images.old
        ≤ room_in (state_of next) images.new + 2 + length bytes.now) }
    ensures changes { Changes B.Board board.old board.new (MayPut first bytes.now)
        (ByResult result (Puts first bytes.now) (MayPut first bytes.now)) }
    ensures calls { OnlyPrograms B.Board board.old result board.new }
{
    match state {
        State::Alone(alone) => {
            let alone = alone.append(board, images, first, bytes)?;
            Ok(State::Alone(alone))
        }
        State::Spilled(spilled) => {
            let spilled = spilled.append(board, images, first, bytes)?;
            Ok(State::Spilled(spilled))
        }
        State::Spent => unreachable!(),
    }
}

/// Puts an entry into a store that is armed, and that has room for it where it is spilled.
pub(crate) fn put_armed<B: Board>(
    state: State,
    board: &mut B,
    images: &mut Images,
    first: u16,
    bytes: &[u8],
) -> Result<State, Fault>
    requires fits { FitsState B.Board board.old (state_of state) images.old }
    requires inside { HasBytesAndRoom (state_of state) images.old }
    requires lines { AreWholeLines first bytes.now }
    requires room { IsTrue (in_both_sectors (state_of state))
        → 2 + length bytes.now ≤ room_in (state_of state) images.old }
    ensures fits { IfOk result (λ next. FitsState B.Board board.new (state_of next) images.new) }
    ensures inside { IfOk result (λ next. HasBytesAndRoom (state_of next) images.new) }
    ensures put { OnOk result (images.new.whole ≡ put (8 * first) bytes.now images.old.whole) }
    ensures kept { OnErr result (images.new.whole ≡ images.old.whole) }
    ensures stays { IfOk result (λ next. IsFalse (lacks_in (state_of state) (2 + length bytes.now))
        → IsTrue (in_one_sector (state_of next))) }
    ensures spills { IfOk result (λ next. IsTrue (lacks_in (state_of state) (2 + length bytes.now))
        → IsTrue (in_both_sectors (state_of next))) }
    ensures guard { IfOk result (λ next. guard_in (state_of next) ≡ guard_in (state_of state)) }
    ensures free { IfOk result (λ next. free_in (state_of next) + 2 + length bytes.now
        ≡ free_in (state_of state)) }
    ensures spare { IfOk result (λ next. spare_in (state_of state) images.old
        ≤ spare_in (state_of next) images.new + 2 + length bytes.now) }
    ensures changes { Changes B.Board board.old board.new (MayPutEntry 0 first bytes.now)
        (ByResult result (PutsEntry 0 first bytes.now) (MayPutEntry 0 first bytes.now)) }
    ensures calls { OnlyPrograms B.Board board.old result board.new }
{
    let ready = go_on(state, board, images, 2 + bytes.len() as u32)?;
    let next = append(ready, board, images, first, bytes)?;
    Ok(next)
}

/// Puts an entry into a store that isn't armed.
pub(crate) fn put_unarmed<B: Board>(
    state: State,
    board: &mut B,
    images: &mut Images,
    first: u16,
    bytes: &[u8],
) -> Result<State, PutError>
    requires fits { FitsState B.Board board.old (state_of state) images.old }
    requires inside { HasBytesAndRoom (state_of state) images.old }
    requires lines { AreWholeLines first bytes.now }
    ensures fits { IfOk result (λ next. FitsState B.Board board.new (state_of next) images.new) }
    ensures inside { IfOk result (λ next. HasBytesAndRoom (state_of next) images.new) }
    ensures put { OnOk result (images.new.whole ≡ put (8 * first) bytes.now images.old.whole) }
    ensures kept { OnErr result (images.new.whole ≡ images.old.whole) }
    ensures alone { IfOk result (λ next. IsTrue (in_one_sector (state_of next))) }
    ensures guard { IfOk result (λ next. guard_in (state_of next)
        ≡ guard_in (state_of state) + due_in (state_of state) (2 + length bytes.now)) }
    ensures copied { IfOk result (λ next. IsTrue (lacks_in (state_of state) (2 + length bytes.now))
        → switch_leaves_in (state_of state) images.old
        ≤ room_in (state_of next) images.new + 2 + length bytes.now) }
    ensures free { IfOk result (λ next. due_in (state_of state) (2 + length bytes.now) ≡ 0
        → free_in (state_of next) + 2 + length bytes.now ≡ free_in (state_of state)) }
    ensures changes { Changes B.Board board.old board.new
        (MayPutEntry (due_in (state_of state) (2 + length bytes.now)) first bytes.now)
        (ByResult result (PutsEntry (due_in (state_of state)
        (2 + length bytes.now)) first bytes.now)
        (MayPutEntry (due_in (state_of state) (2 + length bytes.now)) first bytes.now)) }
    ensures erases { due_in (state_of state) (2 + length bytes.now) ≡ 0
        → ErasesNothing B.Board board.old board.new }
    ensures worn { IfErr result (λ e. OnWorn e (λ count. (count ≡ GUARD_HALFWORDS)
        × (guard_in (state_of state) ≡ GUARD_HALFWORDS)
        × IsTrue (lacks_in (state_of state) (2 + length bytes.now)))) }
    ensures worn_copied { IfErr result (λ e. OnWorn e
        (λ count. IsWornWith B.Board board.new images.new (home_free_in (state_of state)))) }
    ensures used_up { IsTrue (lacks_in (state_of state) (2 + length bytes.now))
        → guard_in (state_of state) ≡ GUARD_HALFWORDS → IfOk result (λ _. ⊥) }
    ensures erases_once { (B.moment board.new).erases ≤ raised_by 1 (B.moment board.old).erases }
    ensures calls { FindsRoom B.Board board.old result board.new }
{
    let home = free_home(state, board, images, 2 + bytes.len() as u32)?;
    let next = append(State::Alone(home), board, images, first, bytes)?;
    Ok(next)
}
