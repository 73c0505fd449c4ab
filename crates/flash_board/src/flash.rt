//! The words of a device, in memory.
ghost use Rattle.std.specs.Prelude.{◌≡◌, ◌<◌, ◌≤◌, ◌^◌, ◌++◌, ℕ, length, IfOk, slice_index, slice_set, replicate, bit_and, vec_capacity};
ghost use Rattle.flash_traits.specs.Words.{Words, halfwords_in, bytes_of, programmed, erased, IsSectorRegion};
ghost use Rattle.flash_board.specs.Rows.{HasRoomFor, half_set};
ghost use Rattle.flash_board.specs.Image.{image_bytes};

use crate::{GUARD_HALFWORDS, Region};
use std::alloc::{AllocError, Global};

// The bytes of the largest image.
const LARGEST: usize = 278_528;

#[derive(Drop)]
pub(crate) struct Flash {
    pub(crate) s0: Vec<u16>,
    pub(crate) s1: Vec<u16>,
    pub(crate) guard: Vec<u16>,
    ghost sizes: { HasRoomFor s0 65536 × (HasRoomFor s1 65536 × HasRoomFor guard 8192) },
}

// Clears the bits of a halfword that the word lacks.
fn clear_bits(halfwords: &mut Vec<u16>, at: usize, word: u16)
    requires { at < length halfwords.old.items }
    ensures after { halfwords.new.items ≡ slice_set halfwords.old.items at (bit_and (slice_index
        halfwords.old.items at) word) }
    ensures capacity { vec_capacity halfwords.new ≡ vec_capacity halfwords.old }
{
    halfwords[at] &= word;
}

fn set_all(halfwords: &mut Vec<u16>)
    ensures after { halfwords.new.items ≡ replicate (length halfwords.old.items) 65535 }
    ensures capacity { vec_capacity halfwords.new ≡ vec_capacity halfwords.old }
{
    halfwords.fill(0xFFFF);
}

// Sets the halfwords at odd offsets.
fn set_odd(halfwords: &mut Vec<u16>)
    ensures after { halfwords.new.items ≡ half_set halfwords.old.items }
    ensures fits { (k : ℕ) → slice_index halfwords.new.items k < 2 ^ 16 }
    ensures len { length halfwords.new.items ≡ length halfwords.old.items }
    ensures capacity { vec_capacity halfwords.new ≡ vec_capacity halfwords.old }
{
    let mut even = 0;
    while even < halfwords.len() && halfwords.len() - even > 1 {
        halfwords[even + 1] = 0xFFFF;
        even += 2;
    }
}

// Makes it n halfwords FFFF. There is room for them.
fn refill(halfwords: &mut Vec<u16>, n: usize)
    requires { n ≤ vec_capacity halfwords.old }
    ensures after { halfwords.new.items ≡ replicate n 65535 }
    ensures capacity { n ≤ vec_capacity halfwords.new ×
        (vec_capacity halfwords.old ≤ vec_capacity halfwords.new) }
{
    halfwords.clear();
    let _ = halfwords.resize(n, 0xFFFF);
}

// Makes it a copy. There is room for it.
fn copy(halfwords: &mut Vec<u16>, from: &Vec<u16>)
    requires { length from.now.items ≤ vec_capacity halfwords.old }
    ensures after { halfwords.new.items ≡ from.now.items }
    ensures capacity { vec_capacity halfwords.old ≤ vec_capacity halfwords.new }
{
    halfwords.clear();
    let _ = halfwords.extend_from_slice(from);
}

// Appends halfwords as bytes, the low byte first.
fn append_bytes(bytes: &mut Vec<u8>, halfwords: &[u16]) -> Result<(), AllocError>
    ensures { IfOk result (λ _. bytes.new.items ≡ bytes.old.items ++ bytes_of halfwords.now) }
{
    for halfword in halfwords {
        bytes.push((*halfword % 256) as u8)?;
        bytes.push((*halfword / 256) as u8)?;
    }
    Ok(())
}

impl Flash {
    ghost use Rattle.flash_board.specs.Flash.{words_of, half_erased, blank_halfwords};

    /// Every halfword FFFF, at a sector of n halfwords.
    pub(crate) fn refill(&mut self, n: usize)
        requires { n ≤ 65536 }
        ensures { words_of self.new ≡ blank_halfwords n }
    {
        refill(&mut self.s0, n);
        refill(&mut self.s1, n);
        refill(&mut self.guard, GUARD_HALFWORDS as usize);
    }

    pub(crate) fn copy_from(&mut self, other: &Flash)
        ensures { words_of self.new ≡ words_of other.now }
    {
        copy(&mut self.s0, &other.s0);
        copy(&mut self.s1, &other.s1);
        copy(&mut self.guard, &other.guard);
    }

    /// The words as a file's bytes.
    pub(crate) fn bytes(&self, alloc: Global) -> Result<Vec<u8>, AllocError>
        ensures { IfOk result (λ bytes. bytes.items ≡ image_bytes (words_of self.now)) }
    {
        let mut bytes = Vec::with_capacity(alloc, LARGEST)?;
        append_bytes(&mut bytes, &self.s0)?;
        append_bytes(&mut bytes, &self.s1)?;
        append_bytes(&mut bytes, &self.guard)?;
        Ok(bytes)
    }

    pub(crate) fn halfword(&self, region: Region, at: usize) -> u16
        requires { at < length (halfwords_in (words_of self.now) region) }
        ensures { result ≡ slice_index (halfwords_in (words_of self.now) region) at }
    {
        match region {
            Region::S0 => self.s0[at],
            Region::S1 => self.s1[at],
            Region::Guard => self.guard[at],
        }
    }

    pub(crate) fn program(&mut self, region: Region, at: usize, word: u16)
        requires { at < length (halfwords_in (words_of self.old) region) }
        ensures { words_of self.new ≡ programmed (words_of self.old) region at word }
    {
        match region {
            Region::S0 => clear_bits(&mut self.s0, at, word),
            Region::S1 => clear_bits(&mut self.s1, at, word),
            Region::Guard => clear_bits(&mut self.guard, at, word),
        }
    }

    pub(crate) fn erase(&mut self, region: Region)
        ensures { words_of self.new ≡ erased (words_of self.old) region }
    {
        match region {
            Region::S0 => set_all(&mut self.s0),
            Region::S1 => set_all(&mut self.s1),
            Region::Guard => set_all(&mut self.guard),
        }
    }

    pub(crate) fn half_erase(&mut self, region: Region)
        ensures after { words_of self.new ≡ half_erased (words_of self.old) region }
        ensures fits { (k : ℕ) → slice_index (halfwords_in (words_of self.new) region) k < 2 ^ 16 }
    {
        match region {
            Region::S0 => set_odd(&mut self.s0),
            Region::S1 => set_odd(&mut self.s1),
            Region::Guard => set_odd(&mut self.guard),
        }
    }
}
