//! The words of a board in memory, with room for sectors of 131,072 bytes.
ghost use Rattle.std.specs.Prelude.{◌≡◌, ◌<◌, ◌≤◌, length, slice_index, slice_set, replicate, bit_and, vec_capacity, IfOk};
ghost use Rattle.flash_traits.specs.Words.{halfwords_in, programmed, erased, blank, IsSectorSize};
ghost use Rattle.flash_traits.specs.declared.numbers.TheConstants.{ERASED};
ghost use Rattle.session_boards.specs.Sizes.{HasRoomFor, sector_halfwords, fresh_sector};

use flash_traits::{ERASED, GUARD_HALFWORDS, Mark, Region, SIGNATURE};
use std::alloc::{AllocError, Global};

/// The bytes of a sector of a fresh image, which is the largest.
pub const SECTOR_BYTES: u32 = 131_072;

/// Two sectors and a guard row, as halfwords.
#[derive(Drop)]
pub struct Device {
    s0: Vec<u16>,
    s1: Vec<u16>,
    guard: Vec<u16>,
    ghost room: { HasRoomFor s0 65536 × (HasRoomFor s1 65536 × HasRoomFor guard 8192) },
}

/// Clears the bits of a halfword that the word lacks.
fn clear_bits(halfwords: &mut Vec<u16>, at: usize, word: u16)
    requires { at < length halfwords.old.items }
    ensures after { halfwords.new.items
        ≡ slice_set halfwords.old.items at (bit_and (slice_index halfwords.old.items at) word) }
    ensures capacity { vec_capacity halfwords.new ≡ vec_capacity halfwords.old }
{
    halfwords[at] &= word;
}

/// Makes every halfword FFFF.
fn set_all(halfwords: &mut Vec<u16>)
    ensures after { halfwords.new.items ≡ replicate (length halfwords.old.items) ERASED }
    ensures capacity { vec_capacity halfwords.new ≡ vec_capacity halfwords.old }
{
    halfwords.fill(ERASED);
}

/// Makes it so many halfwords FFFF. There is room for them.
fn refill(halfwords: &mut Vec<u16>, count: usize)
    requires { count ≤ vec_capacity halfwords.old }
    ensures after { halfwords.new.items ≡ replicate count ERASED }
    ensures capacity { count ≤ vec_capacity halfwords.new
        × (vec_capacity halfwords.old ≤ vec_capacity halfwords.new) }
{
    halfwords.clear();
    let _ = halfwords.resize(count, ERASED);
}

/// So many halfwords FFFF.
fn blank_list(alloc: Global, count: usize) -> Result<Vec<u16>, AllocError>
    ensures items { IfOk result (λ halfwords. halfwords.items ≡ replicate count ERASED) }
    ensures room { IfOk result (λ halfwords. HasRoomFor halfwords count) }
{
    let mut halfwords = Vec::with_capacity(alloc, count)?;
    halfwords.resize(count, ERASED)?;
    Ok(halfwords)
}

/// A sector that has a header with this mark's halfword, and nothing else.
fn sector(alloc: Global, mark: u16) -> Result<Vec<u16>, AllocError>
    ensures items { IfOk result (λ halfwords. halfwords.items ≡ fresh_sector mark) }
    ensures room { IfOk result (λ halfwords. HasRoomFor halfwords sector_halfwords) }
{
    let mut halfwords = blank_list(alloc, SECTOR_BYTES as usize / 2)?;
    halfwords[0] = mark;
    halfwords[1] = SIGNATURE;
    Ok(halfwords)
}

impl Device {
    ghost use Rattle.session_boards.specs.Device.{words_of, fresh_words};

    /// A fresh image: sector 0 is in use, sector 1 available, both without entries.
    pub fn fresh(alloc: Global) -> Result<Device, AllocError>
        ensures { IfOk result (λ device. words_of device ≡ fresh_words) }
    {
        Ok(Device {
            s0: sector(alloc, Mark::InUse.word())?,
            s1: sector(alloc, Mark::Available.word())?,
            guard: blank_list(alloc, GUARD_HALFWORDS as usize)?,
        })
    }

    /// Makes every halfword FFFF, with sectors of that size.
    pub fn blank(&mut self, sector_bytes: u32)
        requires { IsSectorSize sector_bytes }
        ensures { words_of self.new ≡ blank sector_bytes }
    {
        let halfwords = sector_bytes as usize / 2;
        refill(&mut self.s0, halfwords);
        refill(&mut self.s1, halfwords);
        refill(&mut self.guard, GUARD_HALFWORDS as usize);
    }

    /// The halfword at an offset.
    pub fn halfword(&self, region: Region, at: usize) -> u16
        requires { at < length (halfwords_in (words_of self.now) region) }
        ensures { result ≡ slice_index (halfwords_in (words_of self.now) region) at }
    {
        match region {
            Region::S0 => self.s0[at],
            Region::S1 => self.s1[at],
            Region::Guard => self.guard[at],
        }
    }

    /// Clears the bits of a halfword that the word lacks.
    pub fn program(&mut self, region: Region, at: usize, word: u16)
        requires { at < length (halfwords_in (words_of self.old) region) }
        ensures { words_of self.new ≡ programmed (words_of self.old) region at word }
    {
        match region {
            Region::S0 => clear_bits(&mut self.s0, at, word),
            Region::S1 => clear_bits(&mut self.s1, at, word),
            Region::Guard => clear_bits(&mut self.guard, at, word),
        }
    }

    /// Makes every halfword of a region FFFF.
    pub fn erase(&mut self, region: Region)
        ensures { words_of self.new ≡ erased (words_of self.old) region }
    {
        match region {
            Region::S0 => set_all(&mut self.s0),
            Region::S1 => set_all(&mut self.s1),
            Region::Guard => set_all(&mut self.guard),
        }
    }
}
