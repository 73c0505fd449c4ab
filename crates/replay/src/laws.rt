//! What holds of every history.
ghost use Rattle.replay.specs.Keeping.{HistoryKeeps, LinesStay};

/// After any runs with losses between them the words stand for the bytes of the first image with,
/// of each run in turn, a prefix of its lines that has every flushed one.
pub fn history_keeps()
    ensures { HistoryKeeps }
{}

/// A line that was put reads so for as long as it isn't written again.
pub fn lines_stay()
    ensures { LinesStay }
{}
