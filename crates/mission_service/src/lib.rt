//! The mission protocol of MAVLink over the stored mission and the stored fence: uploads,
//! downloads and clearing.
#![tactic(auto)]

ghost use Rattle.std.specs.Prelude.{◌≡◌, ◌<◌, ◌≤◌, ◌+◌, ◌++◌, [], ℕ, List, Option, length, take};
ghost use Rattle.arrayvec.specs.ArrayVec.{array_vec_len};
ghost use Rattle.storage_lines.specs.declared.lines.TheConstants.{STORAGE_BYTES, BATCH_LINES};
ghost use Rattle.storage_lines.specs.Bytes.{AreInside};
ghost use Rattle.storage_lines.specs.Lines.{after};
ghost use Rattle.param_records.specs.Steps.{HasMagic};
ghost use Rattle.param_service.specs.declared.TheConstants.{STATIONS};
ghost use Rattle.mav_messages.specs.declared.messages.Reply.{Reply};
ghost use Rattle.mission_service.specs.Uploads.{no_uploads};
ghost use Rattle.mission_service.specs.Requests.{Asking, Asks};
ghost use Rattle.mission_service.specs.Service.{answered, did, idle};
ghost use Rattle.mission_service.specs.Steps.Inside.{from_seen, request_seen, done_for};
ghost use Rattle.mission_service.specs.Steps.Parts.{AreSafe};
ghost use Rattle.mission_service.specs.Replies.{target_of, AreRepliesOf, IsAnswered};

mod counts;
mod downloads;
mod items;
mod laws;
mod replies;
mod requests;
mod turns;
mod uploads;

use arrayvec::ArrayVec;
use fence_records::FenceItem;
pub use laws::{asks_one_thing, asks_what_fits};
use mav_messages::{Message, Replies, Sender};
use param_service::STATIONS;
pub use replies::Content;
use replies::{UNSUPPORTED, reply};
pub use requests::MissionType;
use requests::{Given, Request, asked};
use std::marker::Model;
use storage_lines::{BATCH_LINES, Batch, STORAGE_BYTES};
pub use uploads::Target;
use uploads::{Asker, FENCE_ITEMS, Uploads};

/// The uploads of the mission and of the fence, with the items that came so far of a fence's open
/// one.
#[derive(Drop)]
pub struct MissionState {
    mission: Uploads,
    fence: Uploads,
    kept: ArrayVec<FenceItem, FENCE_ITEMS>,
}

impl Model for MissionState {
    ghost use Rattle.mission_service.specs.Uploads.{Missions};
    ghost use Rattle.mission_service.specs.Steps.Inside.{AreUploadsRight, missions_seen};

    ghost Value = { Missions };

    ghost view = { λ state. missions_seen state.mission state.fence state.kept.items };

    ghost invariant = { λ state. AreUploadsRight state.mission state.fence state.kept.items };
}

impl MissionState {
    /// No upload is open, and none is finished.
    pub fn new() -> MissionState
        ensures { result ≡ no_uploads }
    {
        MissionState {
            mission: Uploads::Quiet,
            fence: Uploads::Quiet,
            kept: ArrayVec::new(),
        }
    }
}

/// Does what a station asks for, and gives what it is told.
fn serve(
    state: &mut MissionState,
    current: &[u8],
    allowed: Option<u32>,
    asker: &Asker,
    request: &Request,
    batch: &mut Batch,
) -> Option<Content>
    requires size { length current.now ≡ STORAGE_BYTES }
    requires batch { batch.old.items ≡ [] }
    ensures done { answered current.now allowed state.old (from_seen asker.now)
        (request_seen request.now)
        ≡ done_for (from_seen asker.now) state.new batch.new.items result }
    ensures safe { AreSafe current.now batch.new.items }
{
    match request {
        Request::Begin(kind, count) => Some(counts::begin(
            state, current, allowed, asker, *kind, *count, batch,
        )),
        Request::Give(seq, Given::ForMission(given)) => Some(items::give_command(
            state, current, allowed, asker, *seq, *given, batch,
        )),
        Request::Give(seq, Given::ForFence(given)) => Some(items::give_fence_item(
            state, current, allowed, asker, *seq, *given, batch,
        )),
        Request::Clear(types) => Some(counts::clear(state, current, allowed, asker, *types, batch)),
        Request::Count(kind) => Some(Content::Total(downloads::total(*kind, current))),
        Request::Show(kind, seq) => Some(downloads::show(*kind, *seq, current)),
        Request::Cancel(kind) => {
            turns::cancel(state, *kind, asker.station);
            None
        }
        Request::Unsupported => Some(Content::Answer(UNSUPPORTED)),
    }
}

/// Answers a message of a station over the current storage bytes: MISSION_COUNT, MISSION_ITEM_INT,
/// MISSION_CLEAR_ALL, MISSION_REQUEST_LIST, MISSION_REQUEST_INT, MISSION_REQUEST and MISSION_ACK of
/// MAVLink's mission protocol. Any other message has no answer. `allowed` is how many lines may
/// still be issued while the vehicle is armed, and None where it isn't.
pub fn answer(
    state: &mut MissionState,
    current: &[u8],
    allowed: Option<u32>,
    from: Sender,
    message: &Message,
    batch: &mut Batch,
    replies: &mut Replies,
)
    requires size { length current.now ≡ STORAGE_BYTES }
    requires station { from.station < STATIONS }
    requires batch { batch.old.items ≡ [] }
    requires replies { replies.old.items ≡ [] }
    ensures answered { (asked : Option Asking) × Asks message.now asked × IsAnswered
        (did current.now allowed state.old from.station (target_of from) asked)
        from.station state.new batch.new.items replies.new.items }
    ensures within { (limit : ℕ) → allowed ≡ Some limit → length batch.new.items ≤ limit }
    ensures inside { AreInside batch.new.items }
    ensures few { length batch.new.items ≤ BATCH_LINES }
    ensures magic { HasMagic current.now
        → (j : ℕ) → HasMagic (after current.now (take j batch.new.items)) }
{
    let Some(asking) = asked(message) else {
        return;
    };
    let asker = Asker {
        station: from.station,
        target: Target {
            system: from.system,
            component: from.component,
        },
        number: asking.number,
    };
    let told = serve(state, current, allowed, &asker, &asking.request, batch);
    prove!(batch.len() <= BATCH_LINES);
    if let Some(content) = told {
        replies.push(reply(asker.station, asker.target, asker.number, &content));
    }
}

/// A station's idle turn: it is asked again for the next item of each upload that it has open, and
/// the eighth turn in a row without an item closes the upload.
pub fn idle(state: &mut MissionState, station: u8, replies: &mut Replies)
    requires station { station < STATIONS }
    requires room { array_vec_len replies.old ≤ 1 }
    ensures next { state.new ≡ (idle state.old station).missions }
    ensures told { (more : List Reply) × (replies.new.items ≡ replies.old.items ++ more)
        × AreRepliesOf station (idle state.old station).told more }
    ensures few { array_vec_len replies.new ≤ array_vec_len replies.old + 2 }
{
    turns::remind(&mut state.mission, MissionType::Mission, station, replies);
    turns::remind(&mut state.fence, MissionType::Fence, station, replies);
}

#[cfg(test)]
mod tests;
