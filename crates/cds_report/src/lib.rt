//! The texts that the data system writes about its results.
//!
//! Begin at [`sequence_text`], the report of a sequence, and at `specs/Reported.antt`, which says what is reported of
//! it: how it stands in the tables, what its results rest on, and its results, computed anew. [`row_text`] and
//! [`suitability_text`] are two parts of it that are asked for by themselves, and [`signed_text`] is what is signed.
//! [`peaks_text`] is the table of a trace's raw peaks.
#![tactic(auto)]

mod dates;
mod lines;
mod looks;
mod peaks;
mod report;
mod rows;
mod sequence;
mod signed;
mod suitability;
mod words;

pub use dates::date_text;
pub use peaks::peaks_text;
pub use rows::row_text;
pub use sequence::sequence_text;
pub use signed::signed_text;
pub use suitability::suitability_text;
