//! A board over an image file and a UDP socket of this host.
ghost use Rattle.std.specs.Prelude.{◌≡◌, ◌<◌, ◌≤◌, length, IfSome, IfOk, OnOk};
ghost use Rattle.std.specs.Option.{ForSome};
ghost use Rattle.flash_traits.specs.Words.{IsSectorSize, region_length};
ghost use Rattle.flash_traits.specs.Losses.{IsEventInRange};
ghost use Rattle.flash_traits.specs.declared.numbers.TheConstants.{DATAGRAM_BYTES};

use crate::image_file::{Image, not_attached};
use crate::link::Link;
use flash_traits::{Board, Event, Failed, Geometry, Region};
use std::alloc::Global;
use std::fs::File;
use std::io;
use std::net::Net;
use std::rt::Files;
use std::time::Clock;

/// The calls so far, and those of each kind that failed.
#[derive(Clone, Copy)]
struct Counts {
    programs: u64,
    erases: u64,
    receptions: u64,
    sendings: u64,
    attach_faults: u64,
    read_faults: u64,
    flash_faults: u64,
    recv_faults: u64,
    send_faults: u64,
}

const NO_CALLS: Counts = Counts {
    programs: 0,
    erases: 0,
    receptions: 0,
    sendings: 0,
    attach_faults: 0,
    read_faults: 0,
    flash_faults: 0,
    recv_faults: 0,
    send_faults: 0,
};

/// A board over an image file and a UDP socket on 127.0.0.1. It tells no words, events or frames.
///
/// The image is read once, at the attach, and kept in memory. What was programmed is on the disk
/// before an event is waited for and before a frame is sent. Without a link, as at the making of an
/// image, it is there when the call returns.
#[derive(Drop)]
pub(crate) struct FileBoard<'a, R: Files<File = File> + Net + Clock> {
    rt: &'a R,
    alloc: Global,
    image: Image,
    link: Option<Link>,
    counts: Counts,
}

impl<'a, R: Files<File = File> + Net + Clock> FileBoard<'a, R> {
    pub(crate) fn new(rt: &'a R, alloc: Global) -> FileBoard<'a, R> {
        FileBoard {
            rt,
            alloc,
            image: Image::none(alloc),
            link: None,
            counts: NO_CALLS,
        }
    }

    /// Gives the disk what memory has.
    pub(crate) fn close(mut self) -> io::Result<()> {
        self.image.settle()
    }

    fn open(&mut self, name: &str, port: u16, make: Option<u32>) -> io::Result<()>
        requires { ForSome make IsSectorSize }
        ensures size { OnOk result (IsSectorSize self.new.image.sector_bytes) }
        ensures made { OnOk result (IfSome make (λ size. self.new.image.sector_bytes ≡ size)) }
        ensures counts { self.new.counts ≡ self.old.counts }
    {
        self.image.settle()?;
        // a file that is open is locked, and may be the one that is opened
        self.image = Image::none(self.alloc);
        self.link = None;
        self.image = match make {
            Some(sector_bytes) => Image::make(self.rt, self.alloc, name, sector_bytes)?,
            None => Image::open(self.rt, self.alloc, name, port != 0)?,
        };
        if port != 0 {
            self.link = Some(Link::bind(self.rt, port)?);
        }
        Ok(())
    }

    fn change(&mut self, region: Region, at: u32, word: u16) -> io::Result<()>
        requires attached { IsSectorSize self.old.image.sector_bytes }
        requires inside { at < region_length self.old.image.sector_bytes region }
        ensures same { self.new.image.sector_bytes ≡ self.old.image.sector_bytes }
        ensures counts { self.new.counts ≡ self.old.counts }
    {
        self.image.program(region, at, word)?;
        if self.link.is_none() {
            self.image.settle()?;
        }
        Ok(())
    }

    fn receive(&mut self, into: &mut [u8]) -> io::Result<Event>
        requires { length into.old ≡ DATAGRAM_BYTES }
        ensures event { IfOk result IsEventInRange }
        ensures same { self.new.image.sector_bytes ≡ self.old.image.sector_bytes }
        ensures counts { self.new.counts ≡ self.old.counts }
    {
        self.image.settle()?;
        match &mut self.link {
            Some(link) => link.receive(self.rt, into),
            None => Err(not_attached()),
        }
    }

    fn transmit(&mut self, peer: u8, bytes: &[u8]) -> io::Result<()>
        ensures same { self.new.image.sector_bytes ≡ self.old.image.sector_bytes }
        ensures counts { self.new.counts ≡ self.old.counts }
    {
        self.image.settle()?;
        match &mut self.link {
            Some(link) => link.send(peer, bytes),
            None => Err(not_attached()),
        }
    }
}

impl<'a, R: Files<File = File> + Net + Clock> Board for FileBoard<'a, R> {
    ghost use Rattle.flash_traits.specs.Causes.{counts_by_kind};
    ghost use Rattle.vehicle_program.specs.Counts.{untold};

    ghost sector_bytes = { λ b. b.image.sector_bytes };

    ghost tells = { λ _. ⊥ };

    ghost words = { λ _. untold };

    ghost has_lists = { λ _ _ _. Unit {0} };

    ghost moment = { λ b. record {
      programs = b.counts.programs;
      erases = b.counts.erases;
      receptions = b.counts.receptions;
      sendings = b.counts.sendings;
    } };

    ghost now = { λ _ _. ⊥ };

    ghost left = { λ _ _ _. ⊥ };

    ghost faults = { λ b. counts_by_kind b.counts.attach_faults b.counts.read_faults
        b.counts.flash_faults b.counts.recv_faults b.counts.send_faults };

    ghost reads = { λ b o now. absurd now };

    ghost counts_now = { λ b t o le now. now };

    ghost only_now = { λ b o left. left };

    ghost shape = { λ b told known. absurd told };

    #[tactic(auto, using(flash_traits::proofs::Counting::raised_attach))]
    fn attach(&mut self, name: &str, port: u16, make: Option<u32>) -> Result<Geometry, Failed> {
        match self.open(name, port, make) {
            Ok(()) => Ok(self.geometry()),
            Err(_) => {
                self.counts.attach_faults = self.counts.attach_faults.saturating_add(1);
                Err(Failed)
            }
        }
    }

    fn geometry(&self) -> Geometry {
        Geometry {
            sector_bytes: self.image.sector_bytes,
        }
    }

    fn read(&mut self, region: Region, at: u32) -> Result<u16, Failed> {
        Ok(self.image.word(region, at))
    }

    #[tactic(auto, using(flash_traits::proofs::Counting::raised_flash))]
    fn program(&mut self, region: Region, at: u32, word: u16) -> Result<(), Failed> {
        self.counts.programs = self.counts.programs.saturating_add(1);
        match self.change(region, at, word) {
            Ok(()) => Ok(()),
            Err(_) => {
                self.counts.flash_faults = self.counts.flash_faults.saturating_add(1);
                Err(Failed)
            }
        }
    }

    #[tactic(auto, using(flash_traits::proofs::Counting::raised_flash))]
    fn erase(&mut self, region: Region) -> Result<(), Failed> {
        self.counts.erases = self.counts.erases.saturating_add(1);
        match self.image.erase(region) {
            Ok(()) => Ok(()),
            Err(_) => {
                self.counts.flash_faults = self.counts.flash_faults.saturating_add(1);
                Err(Failed)
            }
        }
    }

    #[tactic(auto, using(flash_traits::proofs::Counting::raised_recv))]
    fn recv(&mut self, into: &mut [u8]) -> Result<Event, Failed> {
        self.counts.receptions = self.counts.receptions.saturating_add(1);
        match self.receive(into) {
            Ok(event) => Ok(event),
            Err(_) => {
                self.counts.recv_faults = self.counts.recv_faults.saturating_add(1);
                Err(Failed)
            }
        }
    }

    #[tactic(auto, using(flash_traits::proofs::Counting::raised_send))]
    fn send(&mut self, peer: u8, bytes: &[u8]) -> Result<(), Failed> {
        self.counts.sendings = self.counts.sendings.saturating_add(1);
        match self.transmit(peer, bytes) {
            Ok(()) => Ok(()),
            Err(_) => {
                self.counts.send_faults = self.counts.send_faults.saturating_add(1);
                Err(Failed)
            }
        }
    }
}
