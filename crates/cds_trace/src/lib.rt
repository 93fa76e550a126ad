//! Detector traces: samples of a signal, one in each period, their reads, which are counted, and their CSV.
//!
//! Begin at [`Trace`]: it is made by [`Trace::read_csv`] or [`Trace::from_samples`], and read by [`Trace::at`] and
//! [`Trace::sum`]. [`chord`], [`level_by_span`] and [`height_by_span`] are the straight lines below a signal.
#![tactic(auto)]

mod differences;
mod error;
mod extremes;
mod hold;
mod laws;
mod lines;
mod number;
mod read;
mod spans;
mod trace;
mod write;

pub use differences::SEVEN_BITS;
pub use error::TraceError;
pub use extremes::{Top, first_greatest};
pub use laws::the_limits;
pub use lines::{chord, height_by_span, level_by_span};
pub use number::MOST_DIGITS;
pub use spans::span;
pub use trace::{FEWEST_SAMPLES, GREATEST_SAMPLE, MOST_SAMPLES, Trace};

#[cfg(test)]
mod tests;
