//! The pieces that the lines of a dump and of a report have in common.
ghost use Rattle.std.specs.Prelude.{◌≡◌, ◌≤◌, ◌+◌, ◌++◌, length};
ghost use Rattle.image_report.specs.Texts as texts;

use printed_text::{LINE_BYTES, Line, push, push_number, push_place};
use sector_image::Shape;

/// The sector size of an image, with which each text begins.
pub(crate) fn push_size(line: &mut Line, sector_bytes: u32)
    requires { length line.old.items + 16 ≤ LINE_BYTES }
    ensures bytes { line.new.items ≡ line.old.items ++ texts.size_text sector_bytes }
    ensures len { length line.new.items ≤ length line.old.items + 16 }
{
    push(line, b"image ");
    push_number(line, sector_bytes);
}

/// The place and the digits of a foreign halfword.
pub(crate) fn push_foreign(line: &mut Line, offset: u32, word: u16)
    requires { length line.old.items + 23 ≤ LINE_BYTES }
    ensures bytes { line.new.items ≡ line.old.items ++ texts.foreign_text offset word }
    ensures len { length line.new.items ≤ length line.old.items + 23 }
{
    push(line, b"foreign ");
    push_place(line, offset, word);
}

/// The name of a state.
pub(crate) fn shape_name(shape: Shape) -> &'static [u8]
    ensures name { result.now ≡ texts.shape_name shape }
    ensures short { length result.now ≤ 7 }
{
    match shape {
        Shape::Alone => b"alone",
        Shape::Marked => b"marked",
        Shape::Spilled => b"spilled",
        Shape::Voided => b"voided",
    }
}
