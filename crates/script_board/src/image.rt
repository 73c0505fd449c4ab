//! The words of an image, as the bytes of its file have them: sector 0, sector 1, the guard row,
//! each halfword with its low byte first.
ghost use Rattle.std.specs.Prelude.{◌≡◌, ◌≢◌, ◌⊎◌, ◌≤◌, ◌<◌, ◌+◌, ◌*◌, ◌/◌, ◌%◌, ◌^◌, ℕ, length};
ghost use Rattle.std.specs.Prelude.{slice_index, bit_and};
ghost use Rattle.flash_traits.specs.declared.board.Region.{Region};
ghost use Rattle.flash_traits.specs.Words.{region_length, IsSectorSize, IsSectorRegion, HasShape};
ghost use Rattle.flash_traits.specs.Words.{programmed, erased, halfwords_in, blank};
ghost use Rattle.script_board.specs.Image.{start_of, halfword_at, words_of, half_erased};

use flash_traits::{ERASED, GUARD_HALFWORDS, Region};

/// The bytes of the largest image, with sectors of 131,072 bytes.
pub const IMAGE_BYTES: usize = 278_528;

/// The size has this number.
pub fn sizes()
    ensures { IMAGE_BYTES ≡ 278528 }
{}

/// Where a region begins, in bytes.
fn start_of(sector_bytes: u32, region: Region) -> usize
    requires { sector_bytes ≤ 131072 }
    ensures { result ≡ start_of sector_bytes region }
{
    match region {
        Region::S0 => 0,
        Region::S1 => sector_bytes as usize,
        Region::Guard => 2 * sector_bytes as usize,
    }
}

/// How many halfwords a region has.
fn halfwords_of(sector_bytes: u32, region: Region) -> usize
    ensures { result ≡ region_length sector_bytes region }
{
    match region {
        Region::S0 | Region::S1 => sector_bytes as usize / 2,
        Region::Guard => GUARD_HALFWORDS as usize,
    }
}

/// The halfword whose low byte is this one.
fn halfword(bytes: &[u8], at: usize) -> u16
    requires { at + 1 < length bytes.now }
    ensures { result ≡ halfword_at bytes.now at }
{
    u16::from(bytes[at]) + 256 * u16::from(bytes[at + 1])
}

/// Puts a halfword where its low byte is this one.
fn put(bytes: &mut [u8], at: usize, word: u16)
    requires { at + 1 < length bytes.old }
    ensures word { halfword_at bytes.new at ≡ word }
    ensures low { slice_index bytes.new at ≡ word % 256 }
    ensures high { slice_index bytes.new (at + 1) ≡ word / 256 }
    ensures others { (j : ℕ) → (j ≢ at) → (j ≢ at + 1)
        → slice_index bytes.new j ≡ slice_index bytes.old j }
{
    bytes[at] = (word % 256) as u8;
    bytes[at + 1] = (word / 256) as u8;
}

/// The halfword at an offset of a region.
pub fn read(image: &[u8], sector_bytes: u32, region: Region, at: u32) -> u16
    requires size { length image.now ≡ IMAGE_BYTES }
    requires known { IsSectorSize sector_bytes }
    requires inside { at < region_length sector_bytes region }
    ensures { result ≡ slice_index (halfwords_in (words_of sector_bytes image.now) region) at }
{
    halfword(image, start_of(sector_bytes, region) + 2 * at as usize)
}

/// Clears the bits of the halfword at an offset of a region that the word lacks.
pub(crate) fn program(image: &mut [u8], sector_bytes: u32, region: Region, at: u32, word: u16)
    requires size { length image.old ≡ IMAGE_BYTES }
    requires known { IsSectorSize sector_bytes }
    requires inside { at < region_length sector_bytes region }
    ensures words { words_of sector_bytes image.new
        ≡ programmed (words_of sector_bytes image.old) region at word }
{
    let at = start_of(sector_bytes, region) + 2 * at as usize;
    let old = halfword(image, at);
    put(image, at, old & word);
}

/// Makes bytes 255.
fn fill(bytes: &mut [u8], start: usize, end: usize)
    requires order { start ≤ end }
    requires inside { end ≤ length bytes.old }
    ensures filled { (j : ℕ) → start ≤ j → j < end → slice_index bytes.new j ≡ 255 }
    ensures others { (j : ℕ) → ((j < start) ⊎ (end ≤ j))
        → slice_index bytes.new j ≡ slice_index bytes.old j }
{
    let mut at = start;
    while at < end {
        bytes[at] = 0xFF;
        at += 1;
    }
}

/// Makes every halfword of a region FFFF.
pub(crate) fn erase(image: &mut [u8], sector_bytes: u32, region: Region)
    requires size { length image.old ≡ IMAGE_BYTES }
    requires known { IsSectorSize sector_bytes }
    ensures words { words_of sector_bytes image.new
        ≡ erased (words_of sector_bytes image.old) region }
{
    let start = start_of(sector_bytes, region);
    fill(image, start, start + 2 * halfwords_of(sector_bytes, region));
}

/// Makes the halfwords at the odd offsets of a region FFFF.
pub(crate) fn half_erase(image: &mut [u8], sector_bytes: u32, region: Region)
    requires size { length image.old ≡ IMAGE_BYTES }
    requires known { IsSectorSize sector_bytes }
    ensures words { words_of sector_bytes image.new
        ≡ half_erased (words_of sector_bytes image.old) region }
{
    let start = start_of(sector_bytes, region);
    let end = start + 2 * halfwords_of(sector_bytes, region);
    let mut at = start;
    while at < end {
        put(image, at + 2, ERASED);
        at += 4;
    }
}

/// Makes every byte 255.
pub(crate) fn make_blank(image: &mut [u8], sector_bytes: u32)
    requires size { length image.old ≡ IMAGE_BYTES }
    requires known { IsSectorSize sector_bytes }
    ensures words { words_of sector_bytes image.new ≡ blank sector_bytes }
{
    let end = image.len();
    fill(image, 0, end);
}

/// The words have the shape of their sector size, and each is a halfword.
pub(crate) fn has_shape(image: &[u8], sector_bytes: u32)
    requires known { IsSectorSize sector_bytes }
    ensures shape { HasShape sector_bytes (words_of sector_bytes image.now) }
    ensures halfwords { (r : Region) (k : ℕ)
        → slice_index (halfwords_in (words_of sector_bytes image.now) r) k < 2 ^ 16 }
{}
