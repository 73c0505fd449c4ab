//! The laws, on functions that do nothing.

ghost use Rattle.vehicle_laws.specs.Laws.{RunsByActs, ReadActsFit, LawOfMissions, LawOfUploads, LawOfFenceUploads, LawOfFences, LawOfRecords, LawOfLastValues, LinesByActs, BootFormatsInSteps, StaysInOneLine};

/// What events do is what their acts do, one after another.
pub fn runs_by_acts()
    ensures { RunsByActs }
{}

/// What a frame asks for can be stored, so that the premise of the other laws holds of each run.
pub fn read_acts_fit()
    ensures { ReadActsFit }
{
    mission_service::asks_what_fits();
}

/// While a mission is uploaded, each number of issued lines leaves the old mission or a prefix of
/// the new one.
pub fn law_of_missions()
    ensures { LawOfMissions }
{}

/// An upload that ends with the answer 0 has stored the commands of its station, all of them in
/// order.
pub fn law_of_uploads()
    ensures { LawOfUploads }
{}

/// The same of an upload of a fence.
pub fn law_of_fence_uploads()
    ensures { LawOfFenceUploads }
{}

/// After each number of issued lines a fence is the old one, none, or the new one.
pub fn law_of_fences()
    ensures { LawOfFences }
{}

/// The lines of an act leave the parameters, or set one row: after each of them a new record is
/// absent or whole.
pub fn law_of_records()
    ensures { LawOfRecords }
{}

/// After each number of issued lines a row reads as after the last act that may have set it.
pub fn law_of_last_values()
    ensures { LawOfLastValues }
{}

/// Each number of the lines of a run ends within the lines of one act, so that what is said of each
/// prefix of an act's lines is said of each prefix of a run's.
pub fn lines_by_acts()
    ensures { LinesByActs }
{}

/// Boot leaves formatted bytes, and changes neither the mission nor the fence. After each number of
/// its lines a row reads as before or as after all of them, and a new record is absent or whole.
pub fn boot_formats()
    ensures { BootFormatsInSteps }
{}

/// After each number of lines from the start on the bytes are formatted, and MIS_TOTAL stays in one
/// line.
pub fn stays_in_one_line()
    ensures { StaysInOneLine }
{}
