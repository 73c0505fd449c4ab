//! Marks as the first halfword of a sector's header.
ghost use Rattle.std.specs.Prelude.{◌≡◌, ◌≢◌, IfNone, IfSome};
ghost use Rattle.flash_traits.specs.declared.board.Mark.{Mark};
ghost use Rattle.flash_traits.specs.Marks.{mark_word};

use crate::Mark;

impl Mark {
    /// The halfword of this mark.
    pub fn word(self) -> u16
        ensures { result ≡ mark_word self }
    {
        match self {
            Mark::Available => 0x5BFF,
            Mark::InUse => 0x5BFE,
            Mark::Full => 0x5BFC,
        }
    }

    /// The mark that a halfword is, or None where it is none.
    pub fn from_word(word: u16) -> Option<Mark>
        ensures some { IfSome result (λ mark. word ≡ mark_word mark) }
        ensures none { IfNone result ((mark : Mark) → word ≢ mark_word mark) }
    {
        match word {
            0x5BFF => Some(Mark::Available),
            0x5BFE => Some(Mark::InUse),
            0x5BFC => Some(Mark::Full),
            _ => None,
        }
    }
}
