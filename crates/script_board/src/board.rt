//! The board's parts, and what a call does to them.
ghost use Rattle.std.specs.Prelude.{◌≡◌, ◌≤◌, IsTrue, length};
ghost use Rattle.flash_traits.specs.Words.{is_size};
ghost use Rattle.script_lines.specs.declared.numbers.TheConstants.{SCRIPT_LINES};
ghost use Rattle.script_board.specs.declared.image.TheConstants.{IMAGE_BYTES};
ghost use Rattle.script_board.specs.Marks.{marked};

use crate::image::{self, IMAGE_BYTES};
use crate::waiting::{WAITING_LOSSES, next_call};
use arrayvec::ArrayVec;
use flash_traits::{Failed, Geometry, Region, Sink, Source};
use script_lines::{READ_BYTES, Waiting};

/// Why a call of a script's board failed.
#[derive(Clone, Copy, Debug, PartialEq, Eq)]
pub enum ScriptMark {
    /// Power was lost.
    Lost,
    /// The line of this number, from 1, isn't of the grammar, `e` is missing there, or one loss
    /// more than sixteen would wait.
    Refused { line: u32 },
    /// The source failed.
    Input,
    /// The sink failed.
    Output,
}

/// The mark of a call that failed so. A mark of the sink stays.
pub(crate) fn marked(mark: Option<ScriptMark>, new: ScriptMark) -> Option<ScriptMark>
    ensures { result ≡ marked mark new }
{
    match mark {
        Some(ScriptMark::Output) => mark,
        _ => Some(new),
    }
}

/// A board in memory that runs a script: its events are the lines of a source, each frame is a
/// printed line of a sink, and power is lost where the script says so.
///
/// A loss of power is a call that fails, with the mark `Lost`. The lists of events and frames are
/// counted from where `taken` and `given` are 0.
#[derive(Drop)]
pub struct ScriptBoard<'a, S: Source, K: Sink> {
    pub geometry: Geometry,
    /// Its first bytes are those of an image file of this geometry.
    pub image: Vec<u8>,
    pub input: &'a mut S,
    pub out: &'a mut K,
    /// Its last `ahead` bytes were read and not taken.
    pub buffer: ArrayVec<u8, READ_BYTES>,
    pub ahead: u32,
    /// How many lines of the script were taken, at most as many as a script has.
    pub line: u32,
    /// The bytes of the lines taken, and of the lines printed, since the lists began.
    pub taken: u64,
    pub given: u64,
    /// The losses that wait, and how many program and erase calls there were since the last loss,
    /// or since the first of them began to wait.
    pub waiting: ArrayVec<Waiting, WAITING_LOSSES>,
    pub since: u32,
    pub mark: Option<ScriptMark>,
    /// Program calls, erase calls, receptions and sendings.
    pub moment: [u64; 4],
    /// Failures of attach, of reads and of the flash; lines `x` and refused lines; the last counts
    /// nothing.
    pub faults: [u64; 5],
    ghost known: { IsTrue (is_size geometry.sector_bytes) },
    ghost whole: { length image.items ≡ IMAGE_BYTES },
    ghost within: { ahead ≤ length buffer.items },
    ghost few: { line ≤ SCRIPT_LINES },
}

impl<'a, S: Source, K: Sink> ScriptBoard<'a, S, K> {
    ghost use Rattle.std.specs.Prelude.{◌≡◌, ◌<◌, ◌⊎◌, ◌↔◌, ◌^◌, ℕ, true, false, Some, drop};
    ghost use Rattle.std.specs.Prelude.{slice_index, OnOk, OnErr, IsOk, IsErr};
    ghost use Rattle.flash_traits.specs.declared.board.Region.{Region};
    ghost use Rattle.flash_traits.specs.Words.{region_length, halfwords_in, programmed, erased};
    ghost use Rattle.flash_traits.specs.Words.{IsSectorRegion};
    ghost use Rattle.script_board.specs.Image.{words_of, half_erased};
    ghost use Rattle.script_board.specs.Waiting.{falls_now, calls_counted, first_leaves};
    ghost use Rattle.script_board.specs.Boards.{words_in, OnlyDevice, after_loss, erased_by};
    ghost use Rattle.script_board.specs.declared.board.ScriptMark.TheVariants.{Lost};

    /// The halfword at an offset of a region.
    pub fn halfword(&self, region: Region, at: u32) -> u16
        requires { at < region_length self.now.geometry.sector_bytes region }
        ensures { result ≡ slice_index (halfwords_in (words_in self.now) region) at }
    {
        image::read(&self.image, self.geometry.sector_bytes, region, at)
    }

    /// Each word is a halfword.
    pub fn are_halfwords(&self)
        ensures { (r : Region) (k : ℕ)
            → slice_index (halfwords_in (words_in self.now) r) k < 2 ^ 16 }
    {
        image::has_shape(&self.image, self.geometry.sector_bytes)
    }

    /// Programs a halfword, or loses power before or after that: exactly where the first waiting
    /// loss falls in this call.
    pub fn program_or_lose(&mut self, region: Region, at: u32, word: u16) -> Result<(), Failed>
        requires { at < region_length self.old.geometry.sector_bytes region }
        ensures lost { IsErr result ↔ (falls_now self.old.waiting.items self.old.since ≡ true) }
        ensures done { OnOk result
            (words_in self.new ≡ programmed (words_in self.old) region at word) }
        ensures left { OnErr result (words_in self.new
            ≡ after_loss (first_leaves self.old.waiting.items) (words_in self.old)
            (programmed (words_in self.old) region at word)) }
        ensures waits { OnOk result (self.new.waiting.items ≡ self.old.waiting.items) }
        ensures counted { OnOk result
            (self.new.since ≡ calls_counted self.old.waiting.items self.old.since) }
        ensures fallen { OnErr result (self.new.waiting.items ≡ drop 1 self.old.waiting.items) }
        ensures anew { OnErr result (self.new.since ≡ 0) }
        ensures unmarked { OnOk result (self.new.mark ≡ self.old.mark) }
        ensures marked { OnErr result (self.new.mark ≡ marked self.old.mark Lost) }
        ensures others { OnlyDevice self.old self.new }
    {
        let sector_bytes = self.geometry.sector_bytes;
        match next_call(&mut self.waiting, &mut self.since) {
            None => {
                image::program(&mut self.image, sector_bytes, region, at, word);
                Ok(())
            }
            Some(1) => {
                image::program(&mut self.image, sector_bytes, region, at, word);
                self.mark = marked(self.mark, ScriptMark::Lost);
                Err(Failed)
            }
            Some(_) => {
                self.mark = marked(self.mark, ScriptMark::Lost);
                Err(Failed)
            }
        }
    }

    /// Erases a sector, or loses power before, inside or after that: exactly where the first
    /// waiting loss falls in this call.
    pub fn erase_or_lose(&mut self, region: Region) -> Result<(), Failed>
        ensures lost { IsErr result ↔ (falls_now self.old.waiting.items self.old.since ≡ true) }
        ensures done { OnOk result (words_in self.new ≡ erased (words_in self.old) region) }
        ensures left { OnErr result (words_in self.new
            ≡ erased_by (first_leaves self.old.waiting.items) (words_in self.old) region) }
        ensures waits { OnOk result (self.new.waiting.items ≡ self.old.waiting.items) }
        ensures counted { OnOk result
            (self.new.since ≡ calls_counted self.old.waiting.items self.old.since) }
        ensures fallen { OnErr result (self.new.waiting.items ≡ drop 1 self.old.waiting.items) }
        ensures anew { OnErr result (self.new.since ≡ 0) }
        ensures unmarked { OnOk result (self.new.mark ≡ self.old.mark) }
        ensures marked { OnErr result (self.new.mark ≡ marked self.old.mark Lost) }
        ensures others { OnlyDevice self.old self.new }
    {
        let sector_bytes = self.geometry.sector_bytes;
        match next_call(&mut self.waiting, &mut self.since) {
            None => {
                image::erase(&mut self.image, sector_bytes, region);
                Ok(())
            }
            Some(1) => {
                image::erase(&mut self.image, sector_bytes, region);
                self.mark = marked(self.mark, ScriptMark::Lost);
                Err(Failed)
            }
            Some(2) => {
                image::half_erase(&mut self.image, sector_bytes, region);
                self.mark = marked(self.mark, ScriptMark::Lost);
                Err(Failed)
            }
            Some(_) => {
                self.mark = marked(self.mark, ScriptMark::Lost);
                Err(Failed)
            }
        }
    }
}
