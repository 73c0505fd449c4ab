//! The next line's text, out of a source and through a buffer.
ghost use Rattle.std.specs.Prelude.{◌≡◌, ◌≤◌, ◌<◌, ◌+◌, ◌++◌, [], ◌∷◌, List, ℕ, true, false, length, take, IfSome, IfNone, IfOk, MatchResult};
ghost use Rattle.flash_traits.specs.Causes.{HasOneCause};
ghost use Rattle.script_lines.specs.Script.{line_feed};
ghost use Rattle.script_lines.specs.Reading.{unread_of, HasNoLineFeed, ReadsBytes, Finds};
ghost use Rattle.script_lines.specs.declared.numbers.TheConstants.{SCRIPT_LINE_BYTES};

use crate::{READ_BYTES, SCRIPT_LINE_BYTES};
use arrayvec::ArrayVec;
use flash_traits::{Failed, Source};
use memchr::memchr;

/// The most bytes of one read.
const PIECE_BYTES: usize = 2_048;

/// What stands at the start of the bytes that were read and not taken.
#[derive(Clone, Copy, Debug, PartialEq, Eq)]
pub enum Next {
    /// A text of so many bytes, and the LF that ends its line.
    Line(u32),
    /// A last text of so many bytes, at least one, behind which the input ends.
    Last(u32),
    /// The end of input.
    Nothing,
    /// More bytes than a line may have, 4,200, with no LF among them.
    TooLong,
}

/// The place of the first LF.
fn end_of(bytes: &[u8]) -> Option<usize>
    ensures found { IfSome result (λ k. (later : List ℕ)
        × (bytes.now ≡ take k bytes.now ++ line_feed ∷ later)) }
    ensures inside { IfSome result (λ k. k < length bytes.now) }
    ensures first { IfSome result (λ k. HasNoLineFeed (take k bytes.now)) }
    ensures none { IfNone result (HasNoLineFeed bytes.now) }
{
    memchr(b'\n', bytes)
}

/// Drops the bytes before the last `ahead`.
fn keep_last(buffer: &mut ArrayVec<u8, READ_BYTES>, ahead: usize)
    requires { ahead ≤ length buffer.old.items }
    ensures { buffer.new.items ≡ unread_of buffer.old.items ahead }
{
    let start = buffer.len() - ahead;
    let mut kept = ArrayVec::new();
    match kept.try_extend_from_slice(&buffer.as_slice()[start..]) {
        Ok(()) => {}
        Err(_) => unreachable!(),
    }
    *buffer = kept;
}

/// Reads a piece that follows the unread bytes, and says whether there was one.
fn fill<S: Source>(
    input: &mut S,
    buffer: &mut ArrayVec<u8, READ_BYTES>,
    ahead: &mut u32,
) -> Result<bool, Failed>
    requires within { ahead.old ≤ length buffer.old.items }
    requires room { ahead.old ≤ SCRIPT_LINE_BYTES }
    ensures within { ahead.new ≤ length buffer.new.items }
    ensures reads { (fresh : List ℕ) × ReadsBytes S.Source input.old input.new
        (unread_of buffer.old.items ahead.old) (unread_of buffer.new.items ahead.new) fresh
        × (ahead.new ≡ ahead.old + length fresh)
        × MatchResult result (λ more. (more ≡ true → 1 ≤ length fresh)
        × (more ≡ false → (fresh ≡ []) × (S.tells_rest input.new → S.rest input.new ≡ [])))
        (λ _. fresh ≡ []) }
    ensures cause { HasOneCause (S.faults input.old) (S.faults input.new) result }
{
    keep_last(buffer, *ahead as usize);
    let mut piece = [0; PIECE_BYTES];
    let count = match input.read(&mut piece) {
        Ok(count) => count,
        Err(fault) => return Err(fault),
    };
    match buffer.try_extend_from_slice(&piece[..count]) {
        Ok(()) => {}
        Err(_) => unreachable!(),
    }
    *ahead += count as u32;
    Ok(count > 0)
}

/// Reads until a line, the end of input or too many bytes stand at the start of the unread bytes,
/// which are the last `ahead` of the buffer. It takes none of them: the caller lowers `ahead`.
pub fn next_text<S: Source>(
    input: &mut S,
    buffer: &mut ArrayVec<u8, READ_BYTES>,
    ahead: &mut u32,
) -> Result<Next, Failed>
    requires { ahead.old ≤ length buffer.old.items }
    ensures within { ahead.new ≤ length buffer.new.items }
    ensures reads { (fresh : List ℕ) × ReadsBytes S.Source input.old input.new
        (unread_of buffer.old.items ahead.old) (unread_of buffer.new.items ahead.new) fresh }
    ensures finds { IfOk result (λ next. Finds next (unread_of buffer.new.items ahead.new)
        (S.tells_rest input.new) (S.rest input.new)) }
    ensures cause { HasOneCause (S.faults input.old) (S.faults input.new) result }
{
    'reading: loop {
        let start = buffer.len() - *ahead as usize;
        match end_of(&buffer.as_slice()[start..]) {
            Some(k) => {
                if k > SCRIPT_LINE_BYTES as usize {
                    return Ok(Next::TooLong);
                }
                return Ok(Next::Line(k as u32));
            }
            None => {
                if *ahead > SCRIPT_LINE_BYTES {
                    return Ok(Next::TooLong);
                }
            }
        }
        match fill(input, buffer, ahead) {
            Ok(true) => {}
            Ok(false) => {
                if *ahead == 0 {
                    return Ok(Next::Nothing);
                }
                return Ok(Next::Last(*ahead));
            }
            Err(failed) => return Err(failed),
        }
    }
}
