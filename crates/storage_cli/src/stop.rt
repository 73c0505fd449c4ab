//! Why a command stops, and what one has done that doesn't.
ghost use Rattle.std.specs.Prelude.{◌≡◌, ◌≢◌};
ghost use Rattle.storage_cli.specs.Steps.Stops.{status_of_stop, stop_of, stop_of_fault, stop_of_survey};

use crate::status::{
    ATTACH_FAILED, FLASH_FAILED, FOREIGN_WORD, INPUT_FAILED, LINK_FAILED, NO_COMMAND, NO_MEMORY,
    OUTPUT_FAILED, READ_FAILED, SCRIPT_REFUSED, TURNS_OVER, WORN,
};
use flash_traits::{Fault, Region};
use sector_image::SurveyError;
use std::alloc::AllocError;
use vehicle_node::NodeError;

/// What a `serve` has done by its end.
#[derive(Clone, Copy, Debug, PartialEq, Eq)]
pub(crate) struct Served {
    /// The events before the end.
    pub(crate) events: u32,
    /// The frames sent.
    pub(crate) frames: u64,
    /// The lines issued, those of boot among them.
    pub(crate) lines: u64,
}

/// What a generated session has come to.
#[derive(Clone, Copy, Debug, PartialEq, Eq)]
pub(crate) struct Summary {
    pub(crate) rounds: u16,
    /// The events before the end.
    pub(crate) events: u32,
    /// The frames sent.
    pub(crate) frames: u64,
    /// The lines issued, those of boot among them.
    pub(crate) lines: u64,
    /// The SHA-256 of the storage bytes.
    pub(crate) digest: [u8; 32],
}

/// A halfword that no image has at its place.
#[derive(Clone, Copy, Debug, PartialEq, Eq)]
pub(crate) struct Foreign {
    pub(crate) region: Region,
    /// In halfwords from the start of the region.
    pub(crate) offset: u32,
    pub(crate) word: u16,
}

/// Why a command stopped before its work was done.
#[derive(Clone, Copy, Debug, PartialEq, Eq)]
pub(crate) enum Stop {
    /// The words are no command.
    Words,
    Memory,
    /// The words of the flash are no image.
    Foreign(Foreign),
    Read,
    Flash,
    Link,
    /// A sector is to be voided and the guard row is used up.
    Worn,
    /// So many events were finished, and none was the end.
    Turns(u32),
    Attach,
    /// A read of the input failed.
    Input,
    /// The script's line of this number, from 1, is refused.
    Script(u32),
}

impl Stop {
    /// The status of a command that stopped so.
    pub(crate) fn status(self) -> u8
        ensures status { result ≡ status_of_stop self }
        ensures not_output { result ≢ OUTPUT_FAILED }
    {
        match self {
            Stop::Words => NO_COMMAND,
            Stop::Memory => NO_MEMORY,
            Stop::Foreign(_) => FOREIGN_WORD,
            Stop::Read => READ_FAILED,
            Stop::Flash => FLASH_FAILED,
            Stop::Link => LINK_FAILED,
            Stop::Worn => WORN,
            Stop::Turns(_) => TURNS_OVER,
            Stop::Attach => ATTACH_FAILED,
            Stop::Input => INPUT_FAILED,
            Stop::Script(_) => SCRIPT_REFUSED,
        }
    }
}

impl From<AllocError> for Stop {
    ghost use Rattle.storage_cli.specs.declared.stop.Stop.TheVariants as stops;

    ghost from_gives = { λ _ stop. stop ≡ stops.Memory };

    fn from(_: AllocError) -> Stop {
        Stop::Memory
    }
}

impl From<Fault> for Stop {
    ghost from_gives = { λ kind stop. stop ≡ stop_of_fault kind };

    fn from(kind: Fault) -> Stop {
        match kind {
            Fault::Attach => Stop::Attach,
            Fault::Read => Stop::Read,
            Fault::Flash => Stop::Flash,
            Fault::Recv | Fault::Send => Stop::Link,
        }
    }
}

impl From<SurveyError> for Stop {
    ghost from_gives = { λ error stop. stop ≡ stop_of_survey error };

    fn from(error: SurveyError) -> Stop {
        match error {
            SurveyError::Fault(kind) => Stop::from(kind),
            SurveyError::Foreign {
                region,
                offset,
                word,
            } => Stop::Foreign(Foreign {
                region,
                offset,
                word,
            }),
        }
    }
}

impl From<NodeError> for Stop {
    ghost from_gives = { λ error stop. stop ≡ stop_of error };

    fn from(error: NodeError) -> Stop {
        match error {
            NodeError::Memory => Stop::Memory,
            NodeError::Fault(kind) => Stop::from(kind),
            NodeError::Foreign {
                region,
                offset,
                word,
            } => Stop::Foreign(Foreign {
                region,
                offset,
                word,
            }),
            NodeError::Worn { .. } => Stop::Worn,
        }
    }
}
