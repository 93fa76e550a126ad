//! The figures of chromatographic peaks, as exact fractions, and what they are computed from: where the signal crosses a
//! level of a peak's height, and the noise of a blank. After USP General Chapter 621, in this project's half-height form.
//!
//! Begin at [`crossings`] for the widths of a peak, and at [`resolution`] for the figures; [`peak_time`] is the
//! time that they take.
#![tactic(auto)]

mod blank;
mod formulas;
mod laws;
mod times;
mod widths;

pub use blank::noise;
pub use formulas::{peak_valley, plates, resolution, retention, signal_noise, tailing};
pub use laws::{the_numbers, under_rules_1};
pub use times::{VERTEX_RULES, peak_time};
pub use widths::crossings;

#[cfg(test)]
mod tests;
