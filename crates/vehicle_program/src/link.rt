//! The link of a board: a UDP socket of this host, the stations that are heard on it, and how long
//! it waits.
ghost use Rattle.std.specs.Prelude.{◌≡◌, ◌<◌, ◌≤◌, length, IfOk, IfSome};
ghost use Rattle.flash_traits.specs.Losses.{IsEventInRange};
ghost use Rattle.flash_traits.specs.declared.numbers.TheConstants.{DATAGRAM_BYTES, STATIONS};
ghost use Rattle.vehicle_program.specs.Hearing.{IsHeardInRange};

use crate::places::{PEERS, Places};
use flash_traits::Event;
use std::io;
use std::io::ErrorKind;
use std::net::{Ipv4Addr, Net, SocketAddr, UdpSocket};
use std::time::{Clock, Duration, Instant};

/// The datagram that ends a run.
const END: [u8; 4] = *b"END\n";

/// The milliseconds from one idle turn to the next.
const IDLE_WAIT: u64 = 1000;

/// The wait after an event that sent a whole stretch of a list, in milliseconds.
const LIST_WAIT: u64 = 1;

/// The frames of a stretch of a list.
const STRETCH: u8 = 8;

/// The most datagrams of strangers that one reception drops.
const DROPS: u32 = 4096;

/// What the socket gives.
enum Heard {
    Event(Event),
    /// A datagram of an address that has no place, or nothing yet.
    Stranger,
    Silence,
}

/// A bound socket.
#[derive(Drop)]
pub(crate) struct Link {
    socket: UdpSocket,
    /// How long the socket waits for a datagram.
    wait: Duration,
    places: Places,
    /// When the last idle turn came, or the socket was bound.
    idle: Instant,
    /// The frames that were sent to each station since the last reception.
    frames: [u8; PEERS],
}

impl Link {
    /// Binds a port of 127.0.0.1.
    pub(crate) fn bind<R: Net + Clock>(rt: &R, port: u16) -> io::Result<Link> {
        let socket = UdpSocket::bind(rt, SocketAddr::from((Ipv4Addr::LOCALHOST, port)))?;
        let wait = Duration::from_millis(IDLE_WAIT);
        socket.set_read_timeout(Some(wait))?;
        Ok(Link {
            socket,
            wait,
            places: Places::new(),
            idle: Instant::now(rt)?,
            frames: [0; PEERS],
        })
    }

    /// Waits for an event.
    ///
    /// An idle turn comes once a second by the clock, whatever is heard meanwhile. After an event
    /// that sent a stretch of frames to one station a list may go on, so a silence of a millisecond
    /// gives a datagram without bytes of that station, which asks for nothing; so do many datagrams
    /// of strangers, of the first station.
    pub(crate) fn receive<R: Clock>(&mut self, rt: &R, into: &mut [u8]) -> io::Result<Event>
        requires { length into.old ≡ DATAGRAM_BYTES }
        ensures { IfOk result IsEventInRange }
    {
        let listing = self.listing();
        self.frames = [0; PEERS];
        match self.hear_within(rt, listing.is_some(), into)? {
            Some(event) => Ok(event),
            None => Ok(Event::Datagram {
                peer: listing.unwrap_or(0),
                len: 0,
            }),
        }
    }

    /// Sends a frame to a station.
    pub(crate) fn send(&mut self, peer: u8, bytes: &[u8]) -> io::Result<()> {
        let Some(to) = self.places.address(peer) else {
            return Err(io::Error::from(ErrorKind::NotConnected));
        };
        if self.socket.send_to(bytes, to)? != bytes.len() {
            return Err(io::Error::from(ErrorKind::WriteZero));
        }
        if let Some(frames) = self.frames.get_mut(usize::from(peer)) {
            *frames = frames.saturating_add(1);
        }
        Ok(())
    }

    // The first station to which a stretch of frames was sent since the last reception.
    fn listing(&self) -> Option<u8>
        ensures { IfSome result (λ peer. peer < STATIONS) }
    {
        for i in 0..PEERS {
            if self.frames[i] >= STRETCH {
                return Some(i as u8);
            }
        }
        None
    }

    // Waits for an event, and drops the datagrams of strangers meanwhile, but not for long where a
    // list may go on.
    fn hear_within<R: Clock>(
        &mut self,
        rt: &R,
        is_listing: bool,
        into: &mut [u8],
    ) -> io::Result<Option<Event>>
        requires { length into.old ≡ DATAGRAM_BYTES }
        ensures { IfOk result (λ event. IfSome event IsEventInRange) }
    {
        let mut is_silent = false;
        for _ in 0..DROPS {
            let Some(left) = self.until_idle(rt)? else {
                return Ok(Some(Event::Idle));
            };
            let wait = if is_listing {
                Duration::from_millis(LIST_WAIT)
            } else {
                self.wait_within(left, is_silent)
            };
            match self.hear(rt, wait, into)? {
                Heard::Event(event) => return Ok(Some(event)),
                Heard::Stranger => {}
                Heard::Silence => is_silent = true,
            }
            if is_listing {
                break;
            }
        }
        Ok(None)
    }

    // How long the socket is to wait where so much time is left. While datagrams come, the wait that
    // it has is kept as long as it is no longer, so that it is told another one a few times a second
    // and not at each datagram.
    fn wait_within(&self, left: Duration, is_silent: bool) -> Duration {
        if is_silent {
            left
        } else if self.wait <= left {
            self.wait
        } else {
            left / 2
        }
    }

    // The time until the next idle turn. There is none where it is due; the next second begins then.
    fn until_idle<R: Clock>(&mut self, rt: &R) -> io::Result<Option<Duration>> {
        let left = Duration::from_millis(IDLE_WAIT).saturating_sub(self.idle.elapsed(rt)?);
        if left < Duration::from_millis(LIST_WAIT) {
            self.idle = Instant::now(rt)?;
            return Ok(None);
        }
        Ok(Some(left))
    }

    // Waits so long for a datagram.
    fn hear<R: Clock>(&mut self, rt: &R, wait: Duration, into: &mut [u8]) -> io::Result<Heard>
        requires { length into.old ≡ DATAGRAM_BYTES }
        ensures { IfOk result IsHeardInRange }
    {
        if self.wait != wait {
            self.socket.set_read_timeout(Some(wait))?;
            self.wait = wait;
        }
        let (len, from) = match self.socket.recv_from(into) {
            Ok(heard) => heard,
            Err(e) => return unheard(e),
        };
        if &into[..len] == END.as_slice() {
            return Ok(Heard::Event(Event::End));
        }
        let now = Instant::now(rt)?;
        let Some(peer) = self.places.number_of(from, now) else {
            return Ok(Heard::Stranger);
        };
        Ok(Heard::Event(Event::Datagram {
            peer,
            len: len as u16,
        }))
    }
}

// What it means that no datagram came. After a signal the wait goes on.
fn unheard(error: io::Error) -> io::Result<Heard>
    ensures { IfOk result IsHeardInRange }
{
    match error.kind() {
        ErrorKind::WouldBlock | ErrorKind::TimedOut => Ok(Heard::Silence),
        ErrorKind::Interrupted => Ok(Heard::Stranger),
        _ => Err(error),
    }
}
