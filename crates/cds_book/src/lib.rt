//! The tables of the data system: traces under their names in versions, methods with their drafts and frozen versions,
//! and sequences with their signatures; and the commands on them.
//!
//! Begin at [`Tables`]. A [`Command`] is judged by [`Tables::plan`], which answers a [`Plan`] or the first refusal.
//! The [`Change`] of a plan is carried out in two steps: [`Tables::reserve`] takes the memory, and
//! [`Tables::apply`] can't fail.
#![tactic(auto)]

mod after;
mod apply;
mod command;
mod counts;
mod entry;
mod error;
mod inputs;
mod judge;
mod laws;
mod limits;
mod look;
mod made;
mod numbers;
mod over;
mod plan;
mod plan_sequence;
mod raise;
mod reach;
mod reserve;
mod rises;
mod room;
mod tables;

pub use cds_sign::{Change, Command, MOST_SIGNATURES, MOST_VERSIONS};
pub use command::{Plan, SignPlan};
pub use error::PlanError;
pub use laws::{
    a_basis_rises_where_inputs_differ, a_change_is_what_was_asked, a_draft_is_read_back,
    a_freeze_makes_the_version_named, a_frozen_version_is_the_draft, a_put_sequence_is_read_back,
    a_repeated_change_changes_nothing, a_repeated_signature_is_kept, a_sequence_may_list_itself,
    a_trace_is_read_back, a_trace_is_the_next_version, an_accepted_change_is_in_its_ranges,
    an_accepted_change_raises_the_edition, an_accepted_freeze_is_numbered, equal_inputs_are_told,
    method_versions_stay, other_methods_stay, other_sequences_stay, other_traces_stay,
    rules_are_kept, signatures_stay, the_limits, trace_versions_stay, unreached_inputs_stay,
};
pub use limits::{
    MOST_METHOD_VERSIONS, MOST_METHODS, MOST_ROWS_IN_ALL, MOST_SAMPLES_IN_ALL, MOST_SEQUENCES,
    MOST_SIGNED_BYTES, MOST_TRACE_NAMES, MOST_TRACE_VERSIONS,
};
pub use numbers::SequenceNumbers;
pub use tables::Tables;

#[cfg(test)]
mod test_lines;
#[cfg(test)]
mod tests;
