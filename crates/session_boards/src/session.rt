//! The events of the generated session, each from its number.
ghost use Rattle.std.specs.Prelude.{◌≡◌, ◌≤◌, length, slice_get, take, IfSome, IfNone, None, true};
ghost use Rattle.flash_traits.specs.Losses.{received, IsEventInRange};
ghost use Rattle.flash_traits.specs.declared.numbers.TheConstants.{DATAGRAM_BYTES};
ghost use Rattle.mav_frames.specs.Frames.{IsSent};
ghost use Rattle.session_boards.specs.Places.{IsPlace};
ghost use Rattle.session_boards.specs.Session.{IsEventAt, session};
ghost use Rattle.session_boards.specs.declared.messages.TheConstants.{STATION_COMPONENT, STATION_SYSTEM};

use crate::messages::{STATION_COMPONENT, STATION_SYSTEM, message_at, messages_in};
use arrayvec::ArrayVec;
use flash_traits::Event;
use mav_frames::write_frame_into;
use mav_messages::Message;

/// Where an event stands in the session: its round, its step in that, and how many messages come
/// before it, modulo 256.
#[derive(Clone, Copy)]
pub struct Place {
    pub round: u16,
    pub step: u8,
    pub sequence: u8,
}

/// Where the event with this number stands, counted from 0; None after the last round.
fn place_of(rounds: u16, number: u64) -> Option<Place>
    ensures some { IfSome result (λ place. IsPlace rounds number place) }
    ensures none { IfNone result (slice_get (session rounds) number ≡ None) }
{
    let mut step = number;
    let mut sequence: u8 = 0;
    for round in 0..rounds {
        let messages = messages_in(round);
        if step <= u64::from(messages) {
            return Some(Place {
                round,
                step: step as u8,
                sequence: sequence.wrapping_add(step as u8),
            });
        }
        step -= u64::from(messages) + 1;
        sequence = sequence.wrapping_add(messages);
    }
    None
}

/// Puts the frame of a message at the start of a buffer, and says how long it is.
fn put_frame(message: &Message, sequence: u8, into: &mut [u8]) -> u16
    requires { length into.old ≡ DATAGRAM_BYTES }
    ensures sent { IsSent true sequence STATION_SYSTEM STATION_COMPONENT message.now
        (take result into.new) }
    ensures bound { result ≤ 80 }
{
    let mut frame = ArrayVec::new();
    write_frame_into(
        &mut frame,
        message,
        true,
        STATION_SYSTEM,
        STATION_COMPONENT,
        sequence,
    );
    let len = frame.len();
    into[..len].copy_from_slice(frame.as_slice());
    len as u16
}

/// The event with this number, counted from 0. A datagram's bytes are put into the buffer.
pub fn event_at(rounds: u16, number: u64, into: &mut [u8]) -> Event
    requires { length into.old ≡ DATAGRAM_BYTES }
    ensures event { IsEventAt rounds number (received result into.new) }
    ensures range { IsEventInRange result }
{
    let Some(place) = place_of(rounds, number) else {
        return Event::End;
    };
    match message_at(place.round, place.step) {
        Some(message) => Event::Datagram {
            peer: 0,
            len: put_frame(&message, place.sequence, into),
        },
        None => Event::Idle,
    }
}
