//! MISSION_ITEM_INT: the next item of an upload is taken or refused.
ghost use Rattle.std.specs.Prelude.{◌≡◌, ◌<◌, ◌≤◌, ◌+◌, [], length, OnOk, Result};
ghost use Rattle.fence_records.specs.Lists.{replace_writes};
ghost use Rattle.mission_service.specs.Uploads as model;
ghost use Rattle.mission_service.specs.Uploads.{uploads_of};
ghost use Rattle.mission_service.specs.Requests as asks;
ghost use Rattle.mission_service.specs.Service.{given_to, does};
ghost use Rattle.mission_service.specs.Steps.Inside.{from_seen, upload_seen};
ghost use Rattle.mission_service.specs.Steps.Parts.{AreSafe, IsTaken, IsWritten};

use crate::MissionState;
use crate::replies::{Content, NO_SPACE};
use crate::uploads::{
    Asker, FENCE_ITEMS, Upload, Uploads, after_item, expected_by, is_last, told_after,
};
use arrayvec::ArrayVec;
use fence_records::{FenceItem, check, write};
use mission_commands::Command;
use mission_records::CAPACITY;
use param_service::exceeds;
use storage_lines::{Batch, STORAGE_BYTES};

/// Gives the lines that put the command of the next item, or says why it isn't taken.
#[tactic(auto, using(crate::proofs::Safe::none_safe))]
fn take_command(
    current: &[u8],
    allowed: Option<u32>,
    upload: &Upload,
    given: Result<Command, u8>,
    batch: &mut Batch,
) -> Result<(), u8>
    requires size { length current.now ≡ STORAGE_BYTES }
    requires index { upload.now.expected < CAPACITY }
    requires batch { batch.old.items ≡ [] }
    ensures taken { IsTaken current.now allowed (upload_seen [] upload.now) (asks.ForMission given)
        result batch.new.items [] }
    ensures safe { AreSafe current.now batch.new.items }
{
    let command = given?;
    match mission_records::put(current, upload.expected, &command, batch) {
        Ok(()) if exceeds(allowed, batch) => {
            batch.clear();
            Err(NO_SPACE)
        }
        Ok(()) => Ok(()),
        Err(_) => Err(NO_SPACE),
    }
}

/// Gives the lines that write a fence's items, or says why they aren't taken.
#[tactic(auto, using(crate::proofs::Safe::none_safe, crate::proofs::Taking::no_fence))]
fn write_fence(
    current: &[u8],
    allowed: Option<u32>,
    items: &[FenceItem],
    batch: &mut Batch,
) -> Result<(), u8>
    requires size { length current.now ≡ STORAGE_BYTES }
    requires batch { batch.old.items ≡ [] }
    ensures written { IsWritten allowed (replace_writes current.now items.now)
        result batch.new.items }
    ensures safe { AreSafe current.now batch.new.items }
{
    check(items)?;
    write(current, items, batch)?;
    if exceeds(allowed, batch) {
        batch.clear();
        return Err(NO_SPACE);
    }
    Ok(())
}

/// Keeps the next item of a fence, and gives the lines that write the fence where it is the last
/// one; or says why it isn't taken.
fn take_fence_item(
    kept: &mut ArrayVec<FenceItem, FENCE_ITEMS>,
    current: &[u8],
    allowed: Option<u32>,
    upload: &Upload,
    given: Result<FenceItem, u8>,
    batch: &mut Batch,
) -> Result<(), u8>
    requires size { length current.now ≡ STORAGE_BYTES }
    requires room { length kept.old.items < FENCE_ITEMS }
    requires next { upload.now.expected < upload.now.count }
    requires batch { batch.old.items ≡ [] }
    ensures taken { IsTaken current.now allowed (upload_seen kept.old.items upload.now)
        (asks.ForFence given) result batch.new.items kept.new.items }
    ensures kept { OnOk result (upload.now.expected + 1 < upload.now.count
        → length kept.new.items ≡ length kept.old.items + 1) }
    ensures safe { AreSafe current.now batch.new.items }
{
    let item = given?;
    kept.push(item);
    if !is_last(upload) {
        return Ok(());
    }
    let written = write_fence(current, allowed, kept, batch);
    kept.clear();
    written
}

/// Takes an item of a mission from a station, or refuses it.
pub fn give_command(
    state: &mut MissionState,
    current: &[u8],
    allowed: Option<u32>,
    asker: &Asker,
    seq: u16,
    given: Result<Command, u8>,
    batch: &mut Batch,
) -> Content
    requires size { length current.now ≡ STORAGE_BYTES }
    requires batch { batch.old.items ≡ [] }
    ensures given { given_to current.now allowed state.old (from_seen asker.now) model.Mission seq
        (asks.ForMission given) (uploads_of model.Mission state.old)
        ≡ does (from_seen asker.now) state.new batch.new.items result }
    ensures safe { AreSafe current.now batch.new.items }
{
    let upload = match expected_by(&state.mission, asker, seq) {
        Ok(upload) => upload,
        Err(content) => return content,
    };
    match take_command(current, allowed, &upload, given, batch) {
        Ok(()) => {
            state.mission = after_item(&upload, asker.station);
            told_after(&upload)
        }
        Err(answer) => {
            state.mission = Uploads::Quiet;
            Content::Answer(answer)
        }
    }
}

/// Takes an item of a fence from a station, or refuses it.
pub fn give_fence_item(
    state: &mut MissionState,
    current: &[u8],
    allowed: Option<u32>,
    asker: &Asker,
    seq: u16,
    given: Result<FenceItem, u8>,
    batch: &mut Batch,
) -> Content
    requires size { length current.now ≡ STORAGE_BYTES }
    requires batch { batch.old.items ≡ [] }
    ensures given { given_to current.now allowed state.old (from_seen asker.now) model.Fence seq
        (asks.ForFence given) (uploads_of model.Fence state.old)
        ≡ does (from_seen asker.now) state.new batch.new.items result }
    ensures safe { AreSafe current.now batch.new.items }
{
    let upload = match expected_by(&state.fence, asker, seq) {
        Ok(upload) => upload,
        Err(content) => return content,
    };
    match take_fence_item(&mut state.kept, current, allowed, &upload, given, batch) {
        Ok(()) => {
            state.fence = after_item(&upload, asker.station);
            told_after(&upload)
        }
        Err(answer) => {
            state.fence = Uploads::Quiet;
            Content::Answer(answer)
        }
    }
}
