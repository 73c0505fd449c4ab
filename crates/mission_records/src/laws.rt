//! What the mission is while it is written, on functions that do nothing.
ghost use Rattle.mission_records.specs.Steps.{ClearsInSteps, BeginsInSteps, PutsInSteps};
ghost use Rattle.mission_records.specs.Steps.{SetsNoMission, OthersKeepMissions, FormatsInOneLine};

/// Clearing write by write: the mission is the old one or empty.
pub fn clears_in_steps()
    ensures { ClearsInSteps }
{}

/// Beginning a mission write by write: it is the old one or empty.
pub fn begins_in_steps()
    ensures { BeginsInSteps }
{}

/// Putting a command write by write: the mission is the old one, or has the command at its end.
pub fn puts_in_steps()
    ensures { PutsInSteps }
{}

/// Setting another row of the table changes no mission.
pub fn sets_no_mission()
    ensures { SetsNoMission }
{}

/// Writes to other areas change no mission.
pub fn others_keep_missions()
    ensures { OthersKeepMissions }
{}

/// In storage that was formatted, the total lies in one line; the laws of the writes say that it
/// stays there.
pub fn formats_in_one_line()
    ensures { FormatsInOneLine }
{}
