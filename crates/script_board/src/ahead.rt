//! The next line of a script, before it is taken.
ghost use Rattle.std.specs.Prelude.{◌≡◌, ◌≤◌, List, ℕ, length, take, IfOk, IfSome, IfNone};
ghost use Rattle.flash_traits.specs.Causes.{HasOneCause};
ghost use Rattle.script_lines.specs.Script as script;
ghost use Rattle.script_lines.specs.Script.{Spells};
ghost use Rattle.script_lines.specs.Reading.{ReadsBytes, unread_of};
ghost use Rattle.script_lines.specs.Seen.{script_line_of};
ghost use Rattle.script_board.specs.Taking.{IsAhead, HasNoLine};

use arrayvec::ArrayVec;
use flash_traits::{Failed, Source};
use script_lines::{Next, READ_BYTES, ScriptLine, next_text, parse};

/// A line of a script, and how many bytes it takes, its end among them where it has one.
#[derive(Debug, Drop, PartialEq, Eq)]
pub(crate) struct Ahead {
    pub(crate) line: ScriptLine,
    pub(crate) bytes: u32,
}

/// The line that the first of the unread bytes say, so many of them, or None.
fn line_at(buffer: &[u8], ahead: u32, len: u32) -> Option<ScriptLine>
    requires within { ahead ≤ length buffer.now }
    requires inside { len ≤ ahead }
    ensures some { IfSome result
        (λ line. Spells (script_line_of line) (take len (unread_of buffer.now ahead))) }
    ensures none { IfNone result
        ((line : script.ScriptLine) → Spells line (take len (unread_of buffer.now ahead)) → ⊥) }
{
    let start = buffer.len() - ahead as usize;
    parse(&buffer[start..start + len as usize])
}

/// The next line, or None where the unread bytes begin with no line of the grammar.
pub(crate) fn line_ahead<S: Source>(
    input: &mut S,
    buffer: &mut ArrayVec<u8, READ_BYTES>,
    ahead: &mut u32,
) -> Result<Option<Ahead>, Failed>
    requires { ahead.old ≤ length buffer.old.items }
    ensures within { ahead.new ≤ length buffer.new.items }
    ensures reads { (fresh : List ℕ) × ReadsBytes S.Source input.old input.new
        (unread_of buffer.old.items ahead.old) (unread_of buffer.new.items ahead.new) fresh }
    ensures line { IfOk result (λ found. IfSome found (λ next. IsAhead (script_line_of next.line)
        next.bytes (unread_of buffer.new.items ahead.new) (S.tells_rest input.new)
        (S.rest input.new))) }
    ensures inside { IfOk result (λ found. IfSome found (λ next. next.bytes ≤ ahead.new)) }
    ensures none { IfOk result (λ found. IfNone found (HasNoLine
        (unread_of buffer.new.items ahead.new) (S.tells_rest input.new) (S.rest input.new))) }
    ensures cause { HasOneCause (S.faults input.old) (S.faults input.new) result }
{
    match next_text(input, buffer, ahead) {
        Ok(Next::Line(len)) => match line_at(buffer.as_slice(), *ahead, len) {
            Some(line) => Ok(Some(Ahead {
                line,
                bytes: len + 1,
            })),
            None => Ok(None),
        },
        Ok(Next::Last(len)) => match line_at(buffer.as_slice(), *ahead, len) {
            Some(line) => Ok(Some(Ahead { line, bytes: len })),
            None => Ok(None),
        },
        Ok(Next::Nothing) => Ok(None),
        Ok(Next::TooLong) => Ok(None),
        Err(failed) => Err(failed),
    }
}
