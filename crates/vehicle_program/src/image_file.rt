//! An image file: sector 0, sector 1, then the guard row, in little endian halfwords, and a copy of
//! it in memory.
ghost use Rattle.std.specs.Prelude.{◌≡◌, ◌<◌, ◌≤◌, ◌+◌, ◌*◌, IfOk, vec_len};
ghost use Rattle.flash_traits.specs.Words.{IsSectorSize, IsSectorRegion, region_length, image_length};

use byteorder::{ByteOrder, LittleEndian};
use flash_traits::{GUARD_HALFWORDS, Region, size_of_image};
use std::alloc::Global;
use std::fs::{File, OpenOptions, TryLockError};
use std::io;
use std::io::ErrorKind;
use std::os::unix::fs::FileExt;
use std::rt::Files;

/// The bytes that a disk keeps together: they are those of some write and never of two.
const PAGE_BYTES: usize = 4096;

/// An image file that was read whole.
///
/// A program changes the copy in memory. The bytes that it changed are written to the file in one
/// piece, before the file is synchronized or a byte of another page changes. As the file is
/// synchronized before a byte of another page changes, and around each erase, the disk always has a
/// prefix of the programs.
#[derive(Drop)]
pub(crate) struct Image {
    file: Option<File>,
    bytes: Vec<u8>,
    pub(crate) sector_bytes: u32,
    /// The bytes from `start` to `end`, in the page, may not be in the file yet.
    start: usize,
    end: usize,
    /// The page of all bytes that may not be on the disk yet.
    page: usize,
    /// The file has bytes that may not be on the disk.
    is_dirty: bool,
    ghost small: { sector_bytes ≤ 131072 },
    ghost sized: { 0 < sector_bytes → vec_len bytes ≡ image_length sector_bytes },
    ghost order: { start ≤ end },
    ghost inside: { end ≤ vec_len bytes },
}

/// The error of an image that isn't there.
pub(crate) fn not_attached() -> io::Error {
    io::Error::from(ErrorKind::NotConnected)
}

// The bytes of an image.
fn image_bytes(sector_bytes: u32) -> usize
    requires { sector_bytes ≤ 131072 }
    ensures { result ≡ image_length sector_bytes }
{
    2 * sector_bytes as usize + 2 * GUARD_HALFWORDS as usize
}

// Takes the lock of a file that is written. It is refused where another program has it, and a file
// system without locks is taken as it is.
fn lock(file: &File) -> io::Result<()> {
    match file.try_lock() {
        Err(TryLockError::WouldBlock) => Err(io::Error::from(ErrorKind::WouldBlock)),
        _ => Ok(()),
    }
}

// The place of a region's halfword in the file, in bytes.
fn place(sector_bytes: u32, region: Region, at: u32) -> usize
    requires small { sector_bytes ≤ 131072 }
    requires inside { at < region_length sector_bytes region }
    ensures { result + 2 ≤ image_length sector_bytes }
{
    let start = match region {
        Region::S0 => 0,
        Region::S1 => sector_bytes,
        Region::Guard => 2 * sector_bytes,
    };
    (start + 2 * at) as usize
}

impl Image {
    /// No image.
    pub(crate) fn none(alloc: Global) -> Image
        ensures { result.sector_bytes ≡ 0 }
    {
        Image {
            file: None,
            bytes: Vec::new(alloc),
            sector_bytes: 0,
            start: 0,
            end: 0,
            page: 0,
            is_dirty: false,
        }
    }

    /// Makes an image whose halfwords are all FFFF, in place of the one that may be there, and
    /// keeps it for itself.
    pub(crate) fn make<R: Files<File = File>>(
        rt: &R,
        alloc: Global,
        name: &str,
        sector_bytes: u32,
    ) -> io::Result<Image>
        requires { IsSectorSize sector_bytes }
        ensures { IfOk result (λ image. image.sector_bytes ≡ sector_bytes) }
    {
        let bytes = vec![in alloc; 0xFFu8; image_bytes(sector_bytes)]?;
        let file = OpenOptions::new()
            .read(true)
            .write(true)
            .create(true)
            .open(rt, name)?;
        lock(&file)?;
        file.set_len(0)?;
        file.write_all_at(bytes.as_slice(), 0)?;
        file.sync_all()?;
        Ok(Image {
            file: Some(file),
            bytes,
            sector_bytes,
            start: 0,
            end: 0,
            page: 0,
            is_dirty: false,
        })
    }

    /// Opens an image and reads it, and keeps it for itself where it is to be changed. A file of
    /// another length than the four is refused.
    pub(crate) fn open<R: Files<File = File>>(
        rt: &R,
        alloc: Global,
        name: &str,
        changes: bool,
    ) -> io::Result<Image>
        ensures { IfOk result (λ image. IsSectorSize image.sector_bytes) }
    {
        let file = OpenOptions::new().read(true).write(changes).open(rt, name)?;
        if changes {
            lock(&file)?;
        }
        let Some(sector_bytes) = size_of_image(file.metadata()?.len()) else {
            return Err(io::Error::from(ErrorKind::InvalidData));
        };
        let mut bytes = vec![in alloc; 0u8; image_bytes(sector_bytes)]?;
        file.read_exact_at(bytes.as_mut_slice(), 0)?;
        Ok(Image {
            file: Some(file),
            bytes,
            sector_bytes,
            start: 0,
            end: 0,
            page: 0,
            is_dirty: false,
        })
    }

    /// The halfword at an offset.
    pub(crate) fn word(&self, region: Region, at: u32) -> u16
        requires attached { IsSectorSize self.now.sector_bytes }
        requires inside { at < region_length self.now.sector_bytes region }
    {
        let at = place(self.sector_bytes, region, at);
        LittleEndian::read_u16(&self.bytes[at..at + 2])
    }

    /// Makes the halfword at an offset `old & word` in memory.
    pub(crate) fn program(&mut self, region: Region, at: u32, word: u16) -> io::Result<()>
        requires attached { IsSectorSize self.old.sector_bytes }
        requires inside { at < region_length self.old.sector_bytes region }
        ensures same { self.new.sector_bytes ≡ self.old.sector_bytes }
    {
        let at = place(self.sector_bytes, region, at);
        if at / PAGE_BYTES != self.page {
            self.settle()?;
            self.page = at / PAGE_BYTES;
        }
        let bytes = &mut self.bytes[at..at + 2];
        let old = LittleEndian::read_u16(bytes);
        LittleEndian::write_u16(bytes, old & word);
        self.widen(at, at + 2);
        Ok(())
    }

    /// Makes every halfword of a sector FFFF, in the file and on the disk.
    pub(crate) fn erase(&mut self, region: Region) -> io::Result<()>
        requires attached { IsSectorSize self.old.sector_bytes }
        requires sector { IsSectorRegion region }
        ensures same { self.new.sector_bytes ≡ self.old.sector_bytes }
    {
        self.settle()?;
        let start = match region {
            Region::S0 => 0,
            Region::S1 | Region::Guard => self.sector_bytes as usize,
        };
        let end = start + self.sector_bytes as usize;
        self.bytes[start..end].fill(0xFF);
        self.widen(start, end);
        self.settle()
    }

    /// Gives the file and the disk what memory has.
    pub(crate) fn settle(&mut self) -> io::Result<()>
        ensures same { self.new.sector_bytes ≡ self.old.sector_bytes }
    {
        if self.start == self.end && !self.is_dirty {
            return Ok(());
        }
        let Some(file) = &self.file else {
            return Err(not_attached());
        };
        self.is_dirty = true;
        file.write_all_at(&self.bytes[self.start..self.end], self.start as u64)?;
        self.start = 0;
        self.end = 0;
        file.sync_data()?;
        self.is_dirty = false;
        Ok(())
    }

    // The bytes from start to end are not in the file yet.
    fn widen(&mut self, start: usize, end: usize)
        requires order { start ≤ end }
        requires inside { end ≤ vec_len self.old.bytes }
        ensures same { self.new.sector_bytes ≡ self.old.sector_bytes }
    {
        if self.start == self.end {
            self.start = start;
            self.end = end;
        } else {
            self.start = self.start.min(start);
            self.end = self.end.max(end);
        }
    }
}
