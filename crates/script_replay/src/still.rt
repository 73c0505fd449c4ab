//! An image in memory that is only read.
ghost use Rattle.std.specs.Prelude.{◌≡◌, length, IsTrue};
ghost use Rattle.flash_traits.specs.Words.{is_size};
ghost use Rattle.script_board.specs.declared.image.TheConstants.{IMAGE_BYTES};

use flash_traits::{Board, Event, Failed, Geometry, Region};
use script_board::image;

/// A board over an image, whose calls never fail. Once one would change the words, they are told
/// no more.
#[derive(Drop)]
pub(crate) struct StillBoard {
    pub(crate) geometry: Geometry,
    pub(crate) image: Vec<u8>,
    /// No call came that would have changed the words.
    pub(crate) still: bool,
    ghost known: { IsTrue (is_size geometry.sector_bytes) },
    ghost whole: { length image.items ≡ IMAGE_BYTES },
}

impl Board for StillBoard {
    ghost use Rattle.std.specs.Prelude.{true};
    ghost use Rattle.script_board.specs.Image.{words_of};
    ghost use Rattle.script_replay.specs.Steps.Still.{last_moment, shape_of};

    ghost sector_bytes = { λ b. b.geometry.sector_bytes };

    ghost tells = { λ b. b.still ≡ true };

    ghost words = { λ b. words_of b.geometry.sector_bytes b.image.items };

    ghost has_lists = { λ _ _ _. Unit {0} };

    ghost moment = { λ _. last_moment };

    ghost now = { λ _ _. ⊥ };

    ghost left = { λ _ _ _. ⊥ };

    ghost faults = { λ _ _. 0 };

    ghost reads = { λ b o now. absurd now };

    ghost counts_now = { λ b t o le now. now };

    ghost only_now = { λ b o left. left };

    ghost shape = { λ b told known. shape_of b.geometry.sector_bytes b.image.items };

    fn attach(&mut self, _name: &str, _port: u16, make: Option<u32>) -> Result<Geometry, Failed> {
        if let Some(sector_bytes) = make {
            self.geometry.sector_bytes = sector_bytes;
            self.still = false;
        }
        Ok(self.geometry)
    }

    fn geometry(&self) -> Geometry {
        self.geometry
    }

    fn read(&mut self, region: Region, at: u32) -> Result<u16, Failed> {
        Ok(image::read(&self.image, self.geometry.sector_bytes, region, at))
    }

    fn program(&mut self, _region: Region, _at: u32, _word: u16) -> Result<(), Failed> {
        self.still = false;
        Ok(())
    }

    fn erase(&mut self, _region: Region) -> Result<(), Failed> {
        self.still = false;
        Ok(())
    }

    fn recv(&mut self, _into: &mut [u8]) -> Result<Event, Failed> {
        Ok(Event::Idle)
    }

    fn send(&mut self, _peer: u8, _bytes: &[u8]) -> Result<(), Failed> {
        Ok(())
    }
}
