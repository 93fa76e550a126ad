//! A method: how the peaks of a trace are found, measured, named, calibrated and judged. Every number of a
//! method lies in the range that is stated for it, and every list within its count, by the type itself.
//!
//! Begin at [`Method`] for what a method states, and at its file of limits for each range.
#![tactic(auto)]

mod check;
mod component;
mod error;
mod laws;
mod limits;
mod method;
mod read_check;
mod read_component;
mod read_method;
mod read_settings;
mod values;

pub use check::{Check, CheckKind, CheckList};
pub use component::{Component, ComponentList};
pub use error::MethodError;
pub use laws::the_limits;
pub use limits::{
    FIRST_RULES, LAST_RULES, MOST_AREA, MOST_BUNCH, MOST_CHECKS, MOST_COMPONENTS, MOST_FUSE,
    MOST_HEIGHT, MOST_LIMIT, MOST_METHOD_BYTES, MOST_PLATEAU, MOST_R2_LIMIT,
};
pub use method::{Method, Weight};

#[cfg(test)]
mod tests;
