//! Makes a device in memory from an image's bytes.
ghost use Rattle.std.specs.Prelude.{◌≡◌, ◌≢◌, ◌<◌, ◌≤◌, ◌*◌, ◌+◌, [], ℕ, List, length, IfOk, IsTrue, false};
ghost use Rattle.flash_board.specs.Rows.{HasRoomFor};
ghost use Rattle.flash_traits.specs.Words.{IsSectorSize, halfwords_of};
ghost use Rattle.flash_board.specs.Flash.{words_of};
ghost use Rattle.flash_board.specs.Kept.{peers_fit, moment_of};
ghost use Rattle.flash_board.specs.Holdings.{holdings_of};
ghost use Rattle.flash_board.specs.Image.{image_size, image_words};

use crate::counts::Counts;
use crate::flash::Flash;
use crate::memory::{CALLS, FRAMES, Memory};
use crate::record::Feed;
use arrayvec::ArrayVec;
use flash_traits::size_of_image;
use std::alloc::{AllocError, Global};

const HALFWORDS: usize = 65_536;

const GUARD: usize = 8_192;

fn halfwords_of(alloc: Global, bytes: &[u8], room: usize) -> Result<Vec<u16>, AllocError>
    requires { length bytes.now ≤ 2 * room }
    ensures items { IfOk result (λ list. list.items ≡ halfwords_of bytes.now) }
    ensures room { IfOk result (λ list. HasRoomFor list room) }
{
    let mut list = Vec::with_capacity(alloc, room)?;
    let mut rest = bytes;
    while let [low, high, after @ ..] = rest {
        list.push(u16::from(*low) + 256 * u16::from(*high))?;
        rest = after;
    }
    Ok(list)
}

fn copy_of(item: &Feed) -> Feed
    ensures { result ≡ item.now }
{
    match item {
        Feed::Idle => Feed::Idle,
        Feed::End => Feed::End,
        Feed::Datagram { peer, bytes } => match ArrayVec::try_from(bytes.as_slice()) {
            Ok(bytes) => Feed::Datagram { peer: *peer, bytes },
            Err(_) => unreachable!(),
        },
    }
}

fn copy_feed(alloc: Global, feed: &[Feed]) -> Result<Vec<Feed>, AllocError>
    ensures { IfOk result (λ list. list.items ≡ feed.now) }
{
    let mut list = Vec::new(alloc);
    for item in feed {
        list.push(copy_of(item))?;
    }
    Ok(list)
}

// The sector size of an image of so many bytes, or 0.
#[tactic(auto, using(crate::proofs::Images::size_some, crate::proofs::Images::size_none))]
fn size_or_zero(bytes: usize) -> u32
    ensures { result ≡ image_size bytes }
{
    match size_of_image(bytes as u64) {
        Some(size) => size,
        None => 0,
    }
}

fn load_flash(alloc: Global, image: &[u8]) -> Result<Flash, AllocError>
    ensures { IfOk result (λ flash. words_of flash
        ≡ image_words (image_size (length image.now)) image.now) }
{
    let size = size_or_zero(image.len()) as usize;
    if size == 0 {
        return Ok(Flash {
            s0: halfwords_of(alloc, &[], HALFWORDS)?,
            s1: halfwords_of(alloc, &[], HALFWORDS)?,
            guard: halfwords_of(alloc, &[], GUARD)?,
        });
    }
    Ok(Flash {
        s0: halfwords_of(alloc, &image[..size], HALFWORDS)?,
        s1: halfwords_of(alloc, &image[size..2 * size], HALFWORDS)?,
        guard: halfwords_of(alloc, &image[2 * size..], GUARD)?,
    })
}

/// A device with this image and this feed, before the first attach.
pub(crate) fn load(alloc: Global, image: &[u8], feed: &[Feed]) -> Result<Memory, AllocError>
    requires { IsTrue (peers_fit feed.now) }
    ensures told { IfOk result (λ memory. memory.full ≡ false) }
    ensures words { IfOk result (λ memory. words_of memory.image
        ≡ image_words (image_size (length image.now)) image.now) }
    ensures size { IfOk result (λ memory. memory.size ≡ image_size (length image.now)) }
    ensures unattached { IfOk result (λ memory. memory.sector_bytes ≡ 0) }
    ensures fresh { IfOk result (λ memory. memory.calls.items ≡ []) }
    ensures holdings { IfOk result (λ memory. holdings_of memory
        ≡ record {
          image_size = image_size (length image.now);
          upcoming = feed.now;
          first_frames = [];
          recorded = 0;
        }) }
    ensures counts { IfOk result (λ memory. moment_of memory.counts ≡ record {
      programs = 0;
      erases = 0;
      receptions = 0;
      sendings = 0;
    }) }
{
    let counts = Counts {
        programs: 0,
        erases: 0,
        receptions: 0,
        sendings: 0,
    };
    Ok(Memory {
        image: load_flash(alloc, image)?,
        base: load_flash(alloc, image)?,
        size: size_or_zero(image.len()),
        sector_bytes: 0,
        feed: copy_feed(alloc, feed)?,
        next: 0,
        calls: Vec::with_capacity(alloc, CALLS)?,
        full: false,
        counts,
        first: counts,
        frames: Vec::with_capacity(alloc, FRAMES)?,
    })
}
