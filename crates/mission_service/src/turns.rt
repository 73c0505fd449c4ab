//! A station's idle turn, and a station that cancels its upload.
ghost use Rattle.std.specs.Prelude.{◌≡◌, ◌<◌, ◌≤◌, ◌+◌, ◌++◌, ℕ, List};
ghost use Rattle.arrayvec.specs.ArrayVec.{array_vec_len};
ghost use Rattle.fence_records.specs.declared.items.FenceItem.{FenceItem};
ghost use Rattle.mav_messages.specs.declared.messages.Reply.{Reply};
ghost use Rattle.mission_service.specs.Uploads.{uploads_of, with_uploads};
ghost use Rattle.mission_service.specs.Service.{idled, cancelled};
ghost use Rattle.mission_service.specs.Replies.{AreRepliesOf};
ghost use Rattle.mission_service.specs.Steps.Inside.{uploads_seen, IsOpenRight, AreKept};

use crate::MissionState;
use crate::replies::{Content, OPERATION_CANCELLED, reply};
use crate::requests::{MissionType, number_of};
use crate::uploads::{IDLE_TURNS, Upload, Uploads, cancelled};
use mav_messages::Replies;

/// A station's idle turn for the uploads of a type: its own open one is reminded of, or closed.
pub fn remind(uploads: &mut Uploads, kind: MissionType, station: u8, replies: &mut Replies)
    requires room { array_vec_len replies.old ≤ 2 }
    requires turns { (most : ℕ) × IsOpenRight most uploads.old }
    ensures seen { (kept : List FenceItem) → uploads_seen kept uploads.new
        ≡ (idled station kind (uploads_seen kept uploads.old)).0 }
    ensures told { (kept : List FenceItem) → (more : List Reply)
        × (replies.new.items ≡ replies.old.items ++ more)
        × AreRepliesOf station (idled station kind (uploads_seen kept uploads.old)).1 more }
    ensures few { array_vec_len replies.new ≤ array_vec_len replies.old + 1 }
    ensures right { (most : ℕ) → IsOpenRight most uploads.old → IsOpenRight most uploads.new }
    ensures kept { (kept : List FenceItem) → AreKept uploads.old kept → AreKept uploads.new kept }
{
    let Uploads::Open(upload) = *uploads else {
        return;
    };
    if upload.owner != station {
        return;
    }
    let number = number_of(kind);
    if upload.idle + 1 >= IDLE_TURNS {
        *uploads = Uploads::Quiet;
        replies.push(reply(
            station,
            upload.target,
            number,
            &Content::Answer(OPERATION_CANCELLED),
        ));
    } else {
        *uploads = Uploads::Open(Upload {
            idle: upload.idle + 1,
            ..upload
        });
        replies.push(reply(
            station,
            upload.target,
            number,
            &Content::Next(upload.expected),
        ));
    }
}

/// Closes the station's own upload of a type.
pub fn cancel(state: &mut MissionState, kind: MissionType, station: u8)
    ensures { state.new
        ≡ with_uploads kind state.old (cancelled station (uploads_of kind state.old)) }
{
    match kind {
        MissionType::Mission => state.mission = cancelled(&state.mission, station),
        MissionType::Fence => state.fence = cancelled(&state.fence, station),
    }
}
