//! What holds of every generated session.
ghost use Rattle.session_boards.specs.Laws.{OneSession, SessionEnds};

/// The session comes to its end, and events that come to an end are the whole session.
pub fn session_ends()
    ensures { SessionEnds }
{}

/// There is one session of each number of rounds.
pub fn one_session()
    ensures { OneSession }
{}
