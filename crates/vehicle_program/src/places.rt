//! The places of the stations that a link hears: each has an address, and when it was last heard.
ghost use Rattle.std.specs.Prelude.{◌<◌, IfSome};
ghost use Rattle.flash_traits.specs.declared.numbers.TheConstants.{STATIONS};

use flash_traits::STATIONS;
use std::net::SocketAddr;
use std::time::{Duration, Instant};

/// The stations that a board hears.
pub(crate) const PEERS: usize = STATIONS as usize;

/// An address that was silent for so many seconds gives up its place to a new one.
const SILENCE: u64 = 60;

/// An address that was heard.
#[derive(Clone, Copy)]
struct Place {
    address: SocketAddr,
    heard: Instant,
}

/// Eight places, of which the first are taken.
#[derive(Drop)]
pub(crate) struct Places {
    places: [Option<Place>; PEERS],
}

impl Places {
    pub(crate) fn new() -> Places {
        Places {
            places: [None; PEERS],
        }
    }

    /// The number of the place of an address that is heard now. A new address takes the first free
    /// place, or else that of the address that was silent longest, if that was silent for a minute.
    /// There is none for it otherwise.
    pub(crate) fn number_of(&mut self, address: SocketAddr, now: Instant) -> Option<u8>
        ensures { IfSome result (λ peer. peer < STATIONS) }
    {
        let number = match self.place_of(address) {
            Some(number) => number,
            None => self.place_for_a_new_one(now)?,
        };
        self.places[usize::from(number)] = Some(Place {
            address,
            heard: now,
        });
        Some(number)
    }

    /// The address that has a place.
    pub(crate) fn address(&self, peer: u8) -> Option<SocketAddr> {
        match self.places.get(usize::from(peer)) {
            Some(Some(place)) => Some(place.address),
            _ => None,
        }
    }

    fn place_of(&self, address: SocketAddr) -> Option<u8>
        ensures { IfSome result (λ peer. peer < STATIONS) }
    {
        for i in 0..PEERS {
            if let Some(place) = self.places[i] {
                if place.address == address {
                    return Some(i as u8);
                }
            }
        }
        None
    }

    fn place_for_a_new_one(&self, now: Instant) -> Option<u8>
        ensures { IfSome result (λ peer. peer < STATIONS) }
    {
        let mut quietest = None;
        let mut silence = Duration::from_secs(SILENCE);
        for i in 0..PEERS {
            match self.places[i] {
                None => return Some(i as u8),
                Some(place) => {
                    let silent = now.saturating_duration_since(place.heard);
                    if silent >= silence {
                        quietest = Some(i as u8);
                        silence = silent;
                    }
                }
            }
        }
        quietest
    }
}
