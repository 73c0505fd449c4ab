//! What a vehicle does over a list of events, without a board: how events are read, the run of the
//! machine over them, and what a loss of power may leave of it.
#![tactic(auto)]

mod laws;

pub use laws::{
    boot_formats, events_are_read, events_are_read_once, floors_by_events, frames_are_read,
    orders_decide,
};
