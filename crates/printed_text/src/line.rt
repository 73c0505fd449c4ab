//! A line in a buffer of fixed size. Each piece is appended to what the line has, and there is room
//! for it.
ghost use Rattle.std.specs.Prelude.{◌≡◌, ◌≤◌, ◌+◌, ◌*◌, ◌++◌, length};
ghost use Rattle.hex.specs.Hex.{encode_upper};
ghost use Rattle.printed_text.specs.Pieces.{place_text};

use arrayvec::ArrayVec;
use itoa::{Buffer, Integer};

/// The most bytes of a line, its LF among them.
pub const LINE_BYTES: usize = 80;

/// A line, with its LF once it is whole.
pub type Line = ArrayVec<u8, LINE_BYTES>;

/// Appends these bytes.
pub fn push(line: &mut Line, bytes: &[u8])
    requires { length line.old.items + length bytes.now ≤ LINE_BYTES }
    ensures { line.new.items ≡ line.old.items ++ bytes.now }
{
    match line.try_extend_from_slice(bytes) {
        Ok(()) => {}
        Err(_) => unreachable!(),
    }
}

/// Appends a number in decimal, with `-` before a negative one.
pub fn push_number<I: Integer>(line: &mut Line, number: I)
    requires { length line.old.items + I.MAX_STR_LEN ≤ LINE_BYTES }
    ensures bytes { line.new.items ≡ line.old.items ++ I.text number }
    ensures len { length line.new.items ≤ length line.old.items + I.MAX_STR_LEN }
{
    let mut buffer = Buffer::new();
    push(line, buffer.format(number).as_bytes());
}

/// Appends bytes as hexadecimal digits in upper case, two for each.
pub fn push_hex(line: &mut Line, bytes: &[u8])
    requires { length line.old.items + 2 * length bytes.now ≤ LINE_BYTES }
    ensures bytes { line.new.items ≡ line.old.items ++ encode_upper bytes.now }
    ensures len { length line.new.items ≡ length line.old.items + 2 * length bytes.now }
{
    for byte in bytes {
        let mut digits = [0u8; 2];
        match hex::encode_to_slice([*byte], &mut digits) {
            Ok(()) => {}
            Err(_) => unreachable!(),
        }
        push(
            line,
            &[
                digits[0].to_ascii_uppercase(),
                digits[1].to_ascii_uppercase(),
            ],
        );
    }
}

/// Appends the place of a halfword, as its offset in halfwords, and its four digits: `2 000E`.
pub fn push_place(line: &mut Line, offset: u32, word: u16)
    requires { length line.old.items + 15 ≤ LINE_BYTES }
    ensures bytes { line.new.items ≡ line.old.items ++ place_text offset word }
    ensures len { length line.new.items ≤ length line.old.items + 15 }
{
    push_number(line, offset);
    push(line, b" ");
    push_hex(line, &word.to_be_bytes());
}
