//! Exact areas and heights of a signal over a straight baseline, and the reported area.
//!
//! Begin at [`area`]: it sums trapezoids of signal minus line, from one running sum and the two ends of the range.
//! [`height`] is the signal minus the line at one sample, and [`units`] is what a report shows of an area.
#![tactic(auto)]

mod areas;
mod heights;
mod reported;

pub use areas::area;
pub use heights::height;
pub use reported::units;

#[cfg(test)]
mod tests;
