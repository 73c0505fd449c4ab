//! The laws over runs of the vehicle machine: what the mission, the fence and the parameters are
//! after any number of issued lines, whatever the stations say.
#![tactic(auto)]

mod laws;

pub use laws::{
    boot_formats, law_of_fence_uploads, law_of_fences, law_of_last_values, law_of_missions,
    law_of_records, law_of_uploads, lines_by_acts, read_acts_fit, runs_by_acts, stays_in_one_line,
};
