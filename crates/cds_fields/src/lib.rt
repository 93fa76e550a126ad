//! The judging of fields, for TOML and for JSON alike: what a table or an object states, field by field, or its first
//! refusal with the path of the field.
//!
//! Begin at [`Section`] for a table or an object and at [`Entries`] for a list; [`Refusal`] says how a text's refusals
//! are told, and [`TextValue`] what its values are. [`events`] reads the timed events of either text.
#![tactic(auto)]

mod entries;
mod event;
mod json_value;
mod named;
mod refusal;
mod section;
mod text;
mod toml_value;
mod value;

pub use entries::{Entries, Entry};
pub use event::events;
pub use named::named_numbers;
pub use refusal::Refusal;
pub use section::Section;
pub use text::{read_json, read_toml};
pub use value::TextValue;

#[cfg(test)]
mod tests;
