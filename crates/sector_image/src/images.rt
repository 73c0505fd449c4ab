//! The two lists of storage bytes in memory: those of the image, and those that the sector in use
//! gives alone.
ghost use Rattle.std.specs.Prelude.{◌≡◌, ◌+◌, ◌*◌, ◌<◌, ◌≤◌, IfOk, IfSome, IfNone, All, ℕ, None, length, slice_index};
ghost use Rattle.sector_log.specs.Storage.{storage_bytes};
ghost use Rattle.flash_traits.specs.Values.{put};
ghost use Rattle.sector_image.specs.Images.{both_bytes, IsFirstLeft, with_chunk};
ghost use Rattle.flash_traits.specs.Budget.{chunks};
ghost use Rattle.sector_image.specs.Room.{chunk_at, left_to_copy};

use crate::chunks;
use crate::coverage::Coverage;
use std::alloc::{AllocError, Global};
use std::marker::Model;
use storage_lines::STORAGE_BYTES;

/// The bytes of the storage, 15,360 each: those of the image, and those of the entries of the
/// sector in use alone. Beside them is kept which chunks of the two are the same.
#[derive(Debug, Drop)]
pub struct Images {
    pub(crate) whole: Vec<u8>,
    pub(crate) upper: Vec<u8>,
    pub(crate) coverage: Coverage,
}

impl Model for Images {
    ghost use Rattle.sector_image.specs.Images.{Bytes};
    ghost use Rattle.sector_image.specs.Coverage.{AreCompared};

    ghost Value = { Bytes };

    ghost view = { λ images. record { whole = images.whole.items; upper = images.upper.items } };

    ghost invariant = { λ images. AreCompared images.whole.items images.upper.items
        images.coverage };
}

impl Images {
    /// Room for both lists, all zeros.
    pub fn new(alloc: Global) -> Result<Images, AllocError>
        ensures whole { IfOk result (λ images. All (λ byte. byte ≡ 0) images.whole) }
        ensures upper { IfOk result (λ images. All (λ byte. byte ≡ 0) images.upper) }
        ensures size { IfOk result (λ images. (length images.whole ≡ storage_bytes)
            × (length images.upper ≡ storage_bytes)) }
    {
        let whole = zeros(alloc, STORAGE_BYTES)?;
        let upper = zeros(alloc, STORAGE_BYTES)?;
        Ok(Images {
            whole,
            upper,
            coverage: Coverage::whole(),
        })
    }

    /// The bytes of the image.
    pub fn whole(&self) -> &[u8]
        ensures bytes { result.now ≡ self.now.whole }
        ensures size { length result.now ≡ storage_bytes }
    {
        &self.whole
    }

    /// The bytes of a chunk of the image.
    pub fn chunk(&self, chunk: usize) -> &[u8]
        requires { chunk < chunks }
        ensures chunk { result.now ≡ chunk_at self.now.whole chunk }
        ensures size { length result.now ≡ 64 }
        ensures small { (k : ℕ) → slice_index result.now k < 256 }
    {
        chunks::chunk_of(&self.whole, chunk)
    }

    /// The first chunk that isn't covered.
    pub fn first_left(&self) -> Option<usize>
        ensures some { IfSome result (IsFirstLeft self.now) }
        ensures none { IfNone result (left_to_copy self.now.whole self.now.upper None ≡ 0) }
    {
        self.coverage.first_left()
    }

    /// How many chunks are to be copied, beside that of a completable torn last entry.
    pub fn count_left(&self, finishing: Option<usize>) -> usize
        ensures count { result ≡ left_to_copy self.now.whole self.now.upper finishing }
        ensures most { result ≤ chunks }
    {
        self.coverage.count_left(finishing)
    }

    /// Puts bytes at a line of both lists.
    pub fn put_lines(&mut self, first: u16, bytes: &[u8])
        requires { 8 * first + length bytes.now ≤ storage_bytes }
        ensures { self.new ≡ both_bytes (put (8 * first) bytes.now self.old.whole)
            (put (8 * first) bytes.now self.old.upper) }
    {
        put_lines(first, bytes, &mut self.whole);
        put_lines(first, bytes, &mut self.upper);
        let at = 8 * first as usize;
        let end = (at + bytes.len()).div_ceil(64);
        self.coverage
            .compare(&self.whole, &self.upper, at / 64, end);
    }

    /// Puts a chunk's bytes of the image among those of the sector in use.
    pub fn cover(&mut self, chunk: usize)
        requires { chunk < chunks }
        ensures { self.new ≡ with_chunk self.old chunk }
    {
        chunks::cover(chunk, &self.whole, &mut self.upper);
        self.coverage.mark(chunk, true);
    }

    /// Makes each byte of the sector in use 0: it has no entries.
    pub fn clear_upper(&mut self)
        ensures whole { self.new.whole ≡ self.old.whole }
        ensures upper { All (λ byte. byte ≡ 0) self.new.upper }
        ensures size { length self.new.upper ≡ storage_bytes }
    {
        clear(&mut self.upper);
        self.coverage = Coverage::of(&self.whole, &self.upper);
    }
}

/// Puts bytes at a line.
fn put_lines(first: u16, bytes: &[u8], into: &mut [u8])
    requires { 8 * first + length bytes.now ≤ length into.old }
    ensures { into.new ≡ put (8 * first) bytes.now into.old }
{
    let at = 8 * first as usize;
    into[at..at + bytes.len()].copy_from_slice(bytes);
}

/// Makes every byte 0.
pub(crate) fn clear(bytes: &mut [u8])
    ensures { All (λ byte. byte ≡ 0) bytes.new }
{
    bytes.fill(0);
}

/// So many zeros.
fn zeros(alloc: Global, len: usize) -> Result<Vec<u8>, AllocError>
    ensures size { IfOk result (λ zeros. length zeros.items ≡ len) }
    ensures zeros { IfOk result (λ zeros. All (λ byte. byte ≡ 0) zeros.items) }
{
    vec![in alloc; 0u8; len]
}
