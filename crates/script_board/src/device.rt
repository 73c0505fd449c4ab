//! The board of a script, as every crate above sees a board.
ghost use Rattle.std.specs.Prelude.{◌≡◌, ◌<◌, ◌-◌, ◌^◌};

use crate::board::ScriptBoard;
use crate::image;
use flash_traits::{Board, Event, Failed, Geometry, Region, Sink, Source};

/// A count that begins anew. One that stands at its end stays there.
fn anew(count: u64) -> u64
    ensures zero { result < 2 ^ 64 - 1 → result ≡ 0 }
    ensures counted { result < 2 ^ 64 - 1 → count < 2 ^ 64 - 1 }
{
    if count == u64::MAX { count } else { 0 }
}

impl<'a, S: Source, K: Sink> Board for ScriptBoard<'a, S, K> {
    ghost use Rattle.script_board.specs.Boards.{words_in};
    ghost use Rattle.script_board.specs.Lists.{HasLists, moment_of, failures};
    ghost use Rattle.script_board.specs.Shape.{shape_in};

    ghost sector_bytes = { λ b. b.geometry.sector_bytes };

    ghost tells = { λ _. Unit {0} };

    ghost words = { λ b. words_in b };

    ghost has_lists = { λ b. HasLists S.Source K.Sink b };

    ghost moment = { λ b. moment_of b };

    ghost now = { λ _ _. ⊥ };

    ghost left = { λ _ _ _. ⊥ };

    ghost faults = { λ b. failures S.Source K.Sink b };

    ghost reads = { λ b o now. absurd now };

    ghost counts_now = { λ b t o le now. now };

    ghost only_now = { λ b o left. left };

    ghost shape = { λ b told known. shape_in b };

    fn attach(&mut self, _name: &str, _port: u16, make: Option<u32>) -> Result<Geometry, Failed> {
        self.ahead = 0;
        self.buffer.clear();
        self.taken = anew(self.taken);
        self.given = anew(self.given);
        match make {
            None => Ok(self.geometry),
            Some(sector_bytes) => {
                image::make_blank(&mut self.image, sector_bytes);
                self.geometry.sector_bytes = sector_bytes;
                Ok(self.geometry)
            }
        }
    }

    fn geometry(&self) -> Geometry {
        self.geometry
    }

    fn read(&mut self, region: Region, at: u32) -> Result<u16, Failed> {
        Ok(image::read(&self.image, self.geometry.sector_bytes, region, at))
    }

    fn program(&mut self, region: Region, at: u32, word: u16) -> Result<(), Failed> {
        self.moment[0] = self.moment[0].saturating_add(1);
        match self.program_or_lose(region, at, word) {
            Ok(()) => Ok(()),
            Err(failed) => {
                self.faults[2] = self.faults[2].saturating_add(1);
                Err(failed)
            }
        }
    }

    fn erase(&mut self, region: Region) -> Result<(), Failed> {
        self.moment[1] = self.moment[1].saturating_add(1);
        image::has_shape(&self.image, self.geometry.sector_bytes);
        match self.erase_or_lose(region) {
            Ok(()) => Ok(()),
            Err(failed) => {
                self.faults[2] = self.faults[2].saturating_add(1);
                Err(failed)
            }
        }
    }

    fn recv(&mut self, into: &mut [u8]) -> Result<Event, Failed> {
        self.moment[2] = self.moment[2].saturating_add(1);
        self.take_event(into)
    }

    fn send(&mut self, peer: u8, bytes: &[u8]) -> Result<(), Failed> {
        self.moment[3] = self.moment[3].saturating_add(1);
        self.print_frame(peer, bytes)
    }
}
