//! The records of changes, as a store keeps them.
//!
//! Begin at [`write`] for the record of a change, and at [`read`] for the change of a record.
#![tactic(auto)]

mod events;
mod fields;
mod format;
mod items;
mod laws;
mod pairs;
mod pushing;
mod reading;
mod rows;
mod samples;
mod sequences;
mod writing;

pub use format::MOST_FIRST_SAMPLES;
pub use laws::{
    each_change_has_one_record, each_record_states_one_change, the_kinds, the_limits,
    what_is_written_reads_back,
};
pub use reading::{convert, read};
pub use writing::write;

#[cfg(test)]
mod tests;
