//! MISSION_COUNT and MISSION_CLEAR_ALL: an upload is opened, or types are cleared.
ghost use Rattle.std.specs.Prelude.{◌≡◌, ◌<◌, ◌≤◌, [], length};
ghost use Rattle.arrayvec.specs.ArrayVec.{array_vec_len};
ghost use Rattle.mission_service.specs.Uploads.{uploads_of, with_uploads};
ghost use Rattle.mission_service.specs.Service.{is_anothers, any_anothers, all_quiet, most_of};
ghost use Rattle.mission_service.specs.Service.{first_writes, type_writes, clear_writes, cleared};
ghost use Rattle.mission_service.specs.Service.{begun, opened, does};
ghost use Rattle.mission_service.specs.Steps.Inside.{from_seen, types_seen};
ghost use Rattle.mission_service.specs.Steps.Parts.{AreSafe};

use crate::MissionState;
use crate::replies::{ACCEPTED, Content, DENIED, NO_SPACE};
use crate::requests::MissionType;
use crate::uploads::{Asker, FENCE_ITEMS, Upload, Uploads, is_anothers};
use mission_records::CAPACITY;
use param_service::exceeds;
use storage_lines::{Batch, STORAGE_BYTES};

/// Whether another station's upload of a type is open.
fn is_anothers_of(state: &MissionState, kind: MissionType, station: u8) -> bool
    ensures { result ≡ is_anothers station (uploads_of kind state.now) }
{
    match kind {
        MissionType::Mission => is_anothers(&state.mission, station),
        MissionType::Fence => is_anothers(&state.fence, station),
    }
}

/// Whether another station's upload of a type, or of one of all, is open.
fn is_any_anothers(state: &MissionState, types: Option<MissionType>, station: u8) -> bool
    ensures { result ≡ any_anothers station state.now (types_seen types) }
{
    match types {
        Some(kind) => is_anothers_of(state, kind, station),
        None => {
            is_anothers_of(state, MissionType::Mission, station)
                || is_anothers_of(state, MissionType::Fence, station)
        }
    }
}

/// Gives the lines that clear a type.
fn clear_type(kind: MissionType, current: &[u8], batch: &mut Batch)
    requires size { length current.now ≡ STORAGE_BYTES }
    requires batch { batch.old.items ≡ [] }
    ensures writes { batch.new.items ≡ type_writes kind current.now }
    ensures safe { AreSafe current.now batch.new.items }
{
    match kind {
        MissionType::Mission => mission_records::clear(current, batch),
        MissionType::Fence => fence_records::clear(current, batch),
    }
}

/// Gives the lines that clear a type, or all.
fn clear_lines(types: Option<MissionType>, current: &[u8], batch: &mut Batch)
    requires size { length current.now ≡ STORAGE_BYTES }
    requires batch { batch.old.items ≡ [] }
    ensures writes { batch.new.items ≡ clear_writes current.now (types_seen types) }
    ensures safe { AreSafe current.now batch.new.items }
{
    match types {
        Some(kind) => clear_type(kind, current, batch),
        None => {
            mission_records::clear(current, batch);
            fence_records::clear(current, batch);
        }
    }
}

/// Closes the uploads of a type, or of all.
fn close(state: &mut MissionState, types: Option<MissionType>)
    ensures { state.new ≡ all_quiet state.old (types_seen types) }
{
    match types {
        Some(MissionType::Mission) => state.mission = Uploads::Quiet,
        Some(MissionType::Fence) => state.fence = Uploads::Quiet,
        None => {
            state.mission = Uploads::Quiet;
            state.fence = Uploads::Quiet;
        }
    }
}

/// Clears a type, or all, and closes the station's own uploads.
pub fn clear(
    state: &mut MissionState,
    current: &[u8],
    allowed: Option<u32>,
    asker: &Asker,
    types: Option<MissionType>,
    batch: &mut Batch,
) -> Content
    requires size { length current.now ≡ STORAGE_BYTES }
    requires batch { batch.old.items ≡ [] }
    ensures cleared { cleared current.now allowed state.old (from_seen asker.now) (types_seen types)
        ≡ does (from_seen asker.now) state.new batch.new.items result }
    ensures safe { AreSafe current.now batch.new.items }
{
    if is_any_anothers(state, types, asker.station) {
        return Content::Answer(DENIED);
    }
    clear_lines(types, current, batch);
    if exceeds(allowed, batch) {
        batch.clear();
        return Content::Answer(NO_SPACE);
    }
    close(state, types);
    Content::Answer(ACCEPTED)
}

/// The most items of an upload of a type.
fn most_of(kind: MissionType) -> u16
    ensures { result ≡ most_of kind }
{
    match kind {
        MissionType::Mission => CAPACITY,
        MissionType::Fence => FENCE_ITEMS as u16,
    }
}

/// Gives the lines with which an upload begins.
fn first_lines(kind: MissionType, current: &[u8], batch: &mut Batch)
    requires size { length current.now ≡ STORAGE_BYTES }
    requires batch { batch.old.items ≡ [] }
    ensures writes { batch.new.items ≡ first_writes kind current.now }
    ensures safe { AreSafe current.now batch.new.items }
{
    match kind {
        MissionType::Mission => mission_records::begin(current, batch),
        MissionType::Fence => {}
    }
}

/// Opens an upload of so many items.
fn open(state: &mut MissionState, asker: &Asker, kind: MissionType, count: u16)
    requires some { 0 < count }
    requires most { count ≤ most_of kind }
    ensures { state.new ≡ with_uploads kind state.old (opened (from_seen asker.now) count) }
{
    let upload = Uploads::Open(Upload {
        owner: asker.station,
        target: asker.target,
        count,
        expected: 0,
        idle: 0,
    });
    match kind {
        MissionType::Mission => state.mission = upload,
        MissionType::Fence => {
            state.fence = upload;
            state.kept.clear();
        }
    }
}

/// Begins an upload of so many items: the station's own older one is closed.
pub fn begin(
    state: &mut MissionState,
    current: &[u8],
    allowed: Option<u32>,
    asker: &Asker,
    kind: MissionType,
    count: u16,
    batch: &mut Batch,
) -> Content
    requires size { length current.now ≡ STORAGE_BYTES }
    requires batch { batch.old.items ≡ [] }
    ensures begun { begun current.now allowed state.old (from_seen asker.now) kind count
        ≡ does (from_seen asker.now) state.new batch.new.items result }
    ensures safe { AreSafe current.now batch.new.items }
{
    if is_anothers_of(state, kind, asker.station) {
        return Content::Answer(DENIED);
    }
    if count > most_of(kind) {
        return Content::Answer(NO_SPACE);
    }
    if count == 0 {
        return clear(state, current, allowed, asker, Some(kind), batch);
    }
    first_lines(kind, current, batch);
    if exceeds(allowed, batch) {
        batch.clear();
        return Content::Answer(NO_SPACE);
    }
    open(state, asker, kind, count);
    Content::Next(0)
}
