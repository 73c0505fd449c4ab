//! Parameter records: the values that the storage has, and the line writes that change one.
#![tactic(auto)]

mod appending;
mod formatting;
mod laws;
mod reading;
mod records;
mod setting;
mod values;

pub use appending::{APPEND_LINES, append};
pub use formatting::{FORMAT_LINES, format_batch};
pub use laws::{formats_in_steps, numbers_are_kept, records_are_read, sets_in_steps};
pub use reading::value;
pub use records::{
    Header, Lookup, MAGIC, PARAM_BYTES, end_place, has_magic, header_at, is_match, look_up, place,
    size_of, sizes,
};
pub use setting::{SET_LINES, SetError, fresh_value, number_of, set, set_whole, store};
pub use values::{Value, default_value, value_of};

#[cfg(test)]
mod tests;
