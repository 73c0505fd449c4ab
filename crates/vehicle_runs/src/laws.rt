//! What holds of every reading of events, and of boot.
ghost use Rattle.vehicle_runs.specs.Arming.{OrdersDecide};
ghost use Rattle.vehicle_runs.specs.Boot.{BootFormats};
ghost use Rattle.vehicle_runs.specs.Laws.{FramesAreRead, EventsAreRead, EventsAreReadOnce, FloorsByEvents};

use mav_frames::{a_message_or_none, one_message};
use vehicle_core::asks_one_thing;

/// A frame is silent, or it has one message, which asks for one thing.
pub fn frames_are_read()
    ensures { FramesAreRead }
{
    a_message_or_none();
    asks_one_thing();
    one_message();
}

/// Every list of events of the eight stations can be read.
pub fn events_are_read()
    ensures { EventsAreRead }
{
    frames_are_read();
}

/// Events are read in one way.
pub fn events_are_read_once()
    ensures { EventsAreReadOnce }
{
    frames_are_read();
}

/// Boot leaves a parameter storage that is formatted.
pub fn boot_formats()
    ensures { BootFormats }
{}

/// The orders that are heard decide whether the machine is armed, and what it needs.
pub fn orders_decide()
    ensures { OrdersDecide }
{}

/// What an event flushes for certain depends on its own storage acknowledgements alone.
pub fn floors_by_events()
    ensures { FloorsByEvents }
{}
