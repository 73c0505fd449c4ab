//! A frame as a printed line.
ghost use Rattle.std.specs.Prelude.{◌≡◌, ◌≤◌, ◌+◌, ◌++◌, length};
ghost use Rattle.flash_traits.specs.Losses.{sent_frame};
ghost use Rattle.script_board.specs.Printing.{frame_line};

use crate::board::{ScriptBoard, ScriptMark};
use arrayvec::ArrayVec;
use flash_traits::{FRAME_BYTES, Failed, Sink, Source};

/// The most hexadecimal digits of a frame.
const FRAME_DIGITS: usize = 2 * FRAME_BYTES;

/// The most bytes of a printed frame: `f S HEX` and its end.
pub const FRAME_LINE_BYTES: usize = FRAME_DIGITS + 5;

/// Appends these bytes.
fn push(line: &mut ArrayVec<u8, FRAME_LINE_BYTES>, bytes: &[u8])
    requires { length line.old.items + length bytes.now ≤ FRAME_LINE_BYTES }
    ensures { line.new.items ≡ line.old.items ++ bytes.now }
{
    match line.try_extend_from_slice(bytes) {
        Ok(()) => {}
        Err(_) => unreachable!(),
    }
}

/// The line of a frame, with its end.
pub(crate) fn frame_line(peer: u8, bytes: &[u8]) -> ArrayVec<u8, FRAME_LINE_BYTES>
    requires { length bytes.now ≤ FRAME_BYTES }
    ensures { result.items ≡ frame_line (sent_frame peer bytes.now) }
{
    let mut digits = [0; FRAME_DIGITS];
    let count = 2 * bytes.len();
    match hex::encode_to_slice(bytes, &mut digits[..count]) {
        Ok(()) => {}
        Err(_) => unreachable!(),
    }
    let mut line = ArrayVec::new();
    push(&mut line, &[b'f', b' ', b'0'.wrapping_add(peer), b' ']);
    push(&mut line, &digits[..count]);
    push(&mut line, b"\n");
    line
}

impl<'a, S: Source, K: Sink> ScriptBoard<'a, S, K> {
    ghost use Rattle.std.specs.Prelude.{◌≡◌, ◌≤◌, ◌+◌, ◌-◌, ◌^◌, ◌++◌, min, ℕ, length, take, Some};
    ghost use Rattle.std.specs.Prelude.{OnOk, OnErr, MatchResult};
    ghost use Rattle.flash_traits.specs.Causes.{HasOneCause};
    ghost use Rattle.flash_traits.specs.Losses.{sent_frame};
    ghost use Rattle.script_board.specs.Printing.{frame_line, loss_line};
    ghost use Rattle.script_board.specs.Boards.{OnlySink};
    ghost use Rattle.script_board.specs.declared.board.ScriptMark.TheVariants.{Output};

    /// Prints the line of a frame. It fails only where the sink does.
    pub fn print_frame(&mut self, peer: u8, bytes: &[u8]) -> Result<(), Failed>
        requires { length bytes.now ≤ FRAME_BYTES }
        ensures told { K.tells_written self.new.out.now → K.tells_written self.old.out.now }
        ensures written { K.tells_written self.new.out.now → MatchResult result
            (λ _. K.written self.new.out.now
            ≡ K.written self.old.out.now ++ frame_line (sent_frame peer bytes.now))
            (λ _. (count : ℕ) × (K.written self.new.out.now
            ≡ K.written self.old.out.now ++ take count (frame_line (sent_frame peer bytes.now)))) }
        ensures given { OnOk result (self.new.given ≡ min
            (self.old.given + length (frame_line (sent_frame peer bytes.now))) (2 ^ 64 - 1)) }
        ensures same_given { OnErr result (self.new.given ≡ self.old.given) }
        ensures unmarked { OnOk result (self.new.mark ≡ self.old.mark) }
        ensures marked { OnErr result (self.new.mark ≡ Some Output) }
        ensures cause { HasOneCause (K.faults self.old.out.now) (K.faults self.new.out.now) result }
        ensures same_out { self.new.out.ghost_name ≡ self.old.out.ghost_name }
        ensures others { OnlySink self.old self.new }
    {
        let line = frame_line(peer, bytes);
        match self.out.write_all(line.as_slice()) {
            Ok(()) => {
                self.given = self.given.saturating_add(line.len() as u64);
                Ok(())
            }
            Err(failed) => {
                self.mark = Some(ScriptMark::Output);
                Err(failed)
            }
        }
    }

    /// Prints `loss`. It fails only where the sink does.
    pub fn print_loss(&mut self) -> Result<(), Failed>
        ensures told { K.tells_written self.new.out.now → K.tells_written self.old.out.now }
        ensures written { K.tells_written self.new.out.now → MatchResult result
            (λ _. K.written self.new.out.now ≡ K.written self.old.out.now ++ loss_line)
            (λ _. (count : ℕ) × (K.written self.new.out.now
            ≡ K.written self.old.out.now ++ take count loss_line)) }
        ensures cause { HasOneCause (K.faults self.old.out.now) (K.faults self.new.out.now) result }
        ensures same_out { self.new.out.ghost_name ≡ self.old.out.ghost_name }
        ensures others { OnlySink self.old self.new }
    {
        self.out.write_all(b"loss\n")
    }
}
