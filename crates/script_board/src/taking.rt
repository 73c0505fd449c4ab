//! Lines of the script, taken one by one until one is an event.
ghost use Rattle.std.specs.Prelude.{◌≡◌, ◌≢◌};
ghost use Rattle.script_board.specs.Marks.{marked};
ghost use Rattle.script_board.specs.declared.board.ScriptMark.TheVariants.{Input};

use crate::ahead::line_ahead;
use crate::board::{ScriptBoard, ScriptMark, marked};
use crate::waiting::{WAITING_LOSSES, wait};
use flash_traits::{Event, Failed, Sink, Source};
use script_lines::{SCRIPT_LINES, ScriptLine};

/// The mark after a fault of the source: its own where none of the script's failures came before.
fn unheard(mark: Option<ScriptMark>, failures: u64) -> Option<ScriptMark>
    ensures first { failures ≡ 0 → result ≡ marked mark Input }
    ensures later { failures ≢ 0 → result ≡ mark }
{
    if failures == 0 {
        marked(mark, ScriptMark::Input)
    } else {
        mark
    }
}

impl<'a, S: Source, K: Sink> ScriptBoard<'a, S, K> {
    ghost use Rattle.std.specs.Prelude.{◌≡◌, ◌⊎◌, ◌<◌, ◌≤◌, ◌+◌, ◌-◌, ◌^◌, [], min, List, ℕ};
    ghost use Rattle.std.specs.Prelude.{length, slice_set, slice_index, Some, Ok, IsSome, OnOk};
    ghost use Rattle.std.specs.Prelude.{OnErr, IfOk, MatchResult};
    ghost use Rattle.flash_traits.specs.Counts.{raised, raised_by};
    ghost use Rattle.flash_traits.specs.Causes.{HasOneCause};
    ghost use Rattle.flash_traits.specs.declared.numbers.TheConstants.{DATAGRAM_BYTES};
    ghost use Rattle.flash_traits.specs.Losses.{received, IsEventInRange};
    ghost use Rattle.script_lines.specs.Script as script;
    ghost use Rattle.script_lines.specs.Seen.{script_line_of};
    ghost use Rattle.script_board.specs.Marks.{marked};
    ghost use Rattle.script_board.specs.Taking.{Took};
    ghost use Rattle.script_board.specs.Hearing.{taken_lines, waiting_after, waiting_behind, FewWait};
    ghost use Rattle.script_board.specs.Hearing.{IsRefused, IsEventHeard, IsUnheard};
    ghost use Rattle.script_board.specs.Hearing.{waits_behind, since_taken, since_by};
    ghost use Rattle.script_board.specs.Boards.{unread_in, reception_faults, OnlyScript};
    ghost use Rattle.script_board.specs.declared.board.ScriptMark.TheVariants.{Lost, Refused};
    ghost use Rattle.script_board.specs.declared.board.ScriptMark.TheVariants.{Input, Output};

    /// Refuses the next line.
    fn refuse(&mut self) -> Failed
        ensures mark { self.new.mark ≡ marked self.old.mark (Refused (self.old.line + 1)) }
        ensures faults { self.new.faults ≡ slice_set self.old.faults 3
            (min (slice_index self.old.faults 3 + 1) (2 ^ 64 - 1)) }
        ensures line { self.new.line ≡ self.old.line }
        ensures input { self.new.input ≡ self.old.input }
        ensures unread { unread_in self.new ≡ unread_in self.old }
        ensures taken { self.new.taken ≡ self.old.taken }
        ensures waits { self.new.waiting ≡ self.old.waiting }
        ensures since { self.new.since ≡ self.old.since }
        ensures others { OnlyScript self.old self.new }
    {
        let line = self.line + 1;
        self.mark = marked(self.mark, ScriptMark::Refused { line });
        self.faults[3] = self.faults[3].saturating_add(1);
        Failed
    }

    /// Takes the next line. A loss at a later call begins to wait.
    fn next_line(&mut self) -> Result<ScriptLine, Failed>
        ensures took { (count : ℕ) × Took S.Source self.old.input.now self.new.input.now
            (unread_in self.old) (unread_in self.new) (taken_lines result) count
            × (self.new.taken ≡ raised_by count self.old.taken) }
        ensures spells { IfOk result
            (λ line. (text : List ℕ) × script.Spells (script_line_of line) text) }
        ensures unfailed { OnOk result
            (slice_index self.new.faults 3 ≡ slice_index self.old.faults 3) }
        ensures below { OnOk result (self.old.line < SCRIPT_LINES) }
        ensures counted { OnOk result (self.new.line ≡ self.old.line + 1) }
        ensures same_line { OnErr result (self.new.line ≡ self.old.line) }
        ensures waits { IfOk result (λ line.
            self.new.waiting.items ≡ waiting_after self.old.waiting.items (script_line_of line)) }
        ensures no_more { OnErr result (self.new.waiting.items ≡ self.old.waiting.items) }
        ensures since { IfOk result (λ line. self.new.since
            ≡ since_taken self.old.waiting.items self.old.since (script_line_of line)) }
        ensures same_since { OnErr result (self.new.since ≡ self.old.since) }
        ensures few { OnOk result (length self.old.waiting.items ≤ WAITING_LOSSES
            → length self.new.waiting.items ≤ WAITING_LOSSES) }
        ensures why { OnErr result
            (((S.faults self.new.input.now ≡ raised (S.faults self.old.input.now))
            × (slice_index self.old.faults 3 ≡ 0 → self.new.mark ≡ marked self.old.mark Input))
            ⊎ (IsRefused self.new.line self.new.waiting.items (unread_in self.new)
            (S.tells_rest self.new.input.now) (S.rest self.new.input.now)
            × (self.new.mark ≡ marked self.old.mark (Refused (self.new.line + 1)))
            × (S.faults self.new.input.now ≡ S.faults self.old.input.now))) }
        ensures source { OnOk result
            (S.faults self.new.input.now ≡ S.faults self.old.input.now) }
        ensures unmarked { OnOk result (self.new.mark ≡ self.old.mark) }
        ensures marked { OnErr result (slice_index self.old.faults 3 ≡ 0 → IsSome self.new.mark) }
        ensures output { self.old.mark ≡ Some Output → self.new.mark ≡ Some Output }
        ensures cause { HasOneCause (reception_faults S.Source self.old)
            (reception_faults S.Source self.new) result }
        ensures same_input { self.new.input.ghost_name ≡ self.old.input.ghost_name }
        ensures others { OnlyScript self.old self.new }
    {
        if self.line >= SCRIPT_LINES {
            return Err(self.refuse());
        }
        let next = match line_ahead(&mut *self.input, &mut self.buffer, &mut self.ahead) {
            Ok(Some(next)) => next,
            Ok(None) => return Err(self.refuse()),
            Err(failed) => {
                self.mark = unheard(self.mark, self.faults[3]);
                return Err(failed);
            }
        };
        if let ScriptLine::LossLater(loss) = &next.line {
            if self.waiting.len() >= WAITING_LOSSES {
                return Err(self.refuse());
            }
            wait(&mut self.waiting, &mut self.since, *loss);
        }
        self.ahead -= next.bytes;
        self.line += 1;
        self.taken = self.taken.saturating_add(u64::from(next.bytes));
        Ok(next.line)
    }

    /// Power is lost between two calls.
    fn lose_now(&mut self) -> Failed
        ensures mark { self.new.mark ≡ marked self.old.mark Lost }
        ensures faults { self.new.faults ≡ slice_set self.old.faults 3
            (min (slice_index self.old.faults 3 + 1) (2 ^ 64 - 1)) }
        ensures since { self.new.since ≡ 0 }
        ensures cause { reception_faults S.Source self.new
            ≡ raised (reception_faults S.Source self.old) }
        ensures line { self.new.line ≡ self.old.line }
        ensures input { self.new.input ≡ self.old.input }
        ensures unread { unread_in self.new ≡ unread_in self.old }
        ensures taken { self.new.taken ≡ self.old.taken }
        ensures waits { self.new.waiting ≡ self.old.waiting }
        ensures others { OnlyScript self.old self.new }
    {
        self.since = 0;
        self.mark = marked(self.mark, ScriptMark::Lost);
        self.faults[3] = self.faults[3].saturating_add(1);
        Failed
    }

    /// Takes lines until one is an event, whose datagram comes into the buffer. It fails at a line
    /// `x`, at a line that is refused, and where the source fails.
    pub fn take_event(&mut self, into: &mut [u8]) -> Result<Event, Failed>
        requires { length into.old ≡ DATAGRAM_BYTES }
        ensures bounds { IfOk result IsEventInRange }
        ensures took { (lines : List script.ScriptLine) × (count : ℕ)
            × Took S.Source self.old.input.now self.new.input.now
            (unread_in self.old) (unread_in self.new) lines count
            × (self.new.taken ≡ raised_by count self.old.taken)
            × (self.new.line ≡ self.old.line + length lines)
            × (length self.new.waiting.items
            ≡ waiting_behind result (length self.old.waiting.items) lines)
            × MatchResult result (λ event. IsEventHeard event into.new lines)
            (λ _. IsUnheard self.old.mark self.new.mark (slice_index self.old.faults 3) lines
            (S.faults self.old.input.now) (S.faults self.new.input.now) (self.new.line + 1)
            (IsRefused self.new.line self.new.waiting.items (unread_in self.new)
            (S.tells_rest self.new.input.now) (S.rest self.new.input.now)))
            × FewWait (length self.old.waiting.items) lines
            × (self.new.waiting.items ≡ waits_behind result self.old.waiting.items lines)
            × (self.new.since ≡ since_by self.old.waiting.items self.old.since lines) }
        ensures unfailed { OnOk result
            (slice_index self.new.faults 3 ≡ slice_index self.old.faults 3) }
        ensures source { OnOk result
            (S.faults self.new.input.now ≡ S.faults self.old.input.now) }
        ensures last { result ≡ Ok Event.End → self.new.waiting.items ≡ [] }
        ensures unmarked { OnOk result (self.new.mark ≡ self.old.mark) }
        ensures marked { OnErr result (slice_index self.old.faults 3 ≡ 0 → IsSome self.new.mark) }
        ensures output { self.old.mark ≡ Some Output → self.new.mark ≡ Some Output }
        ensures cause { HasOneCause (reception_faults S.Source self.old)
            (reception_faults S.Source self.new) result }
        ensures same_input { self.new.input.ghost_name ≡ self.old.input.ghost_name }
        ensures others { OnlyScript self.old self.new }
    {
        'lines: loop {
            match self.next_line() {
                Ok(line) => match line {
                    ScriptLine::LossLater(_) => {}
                    ScriptLine::LossNow => return Err(self.lose_now()),
                    ScriptLine::Idle => return Ok(Event::Idle),
                    ScriptLine::End => {
                        self.waiting.clear();
                        return Ok(Event::End);
                    }
                    ScriptLine::Datagram { station, bytes } => {
                        let len = bytes.len();
                        into[..len].copy_from_slice(bytes.as_slice());
                        return Ok(Event::Datagram {
                            peer: station,
                            len: len as u16,
                        });
                    }
                },
                Err(failed) => return Err(failed),
            }
        }
    }
}
