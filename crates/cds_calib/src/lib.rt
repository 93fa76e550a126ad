//! Calibration: points of amount and area, the straight line through them by least squares, and the amount of an area.
//! Every number is exact.
//!
//! Begin at [`Points`], which keeps the points of one component in their order; [`Points::fit`] gives their line as a
//! [`Fit`], by which [`amount`] turns an area into an amount; [`Points::determination`] says how well a line fits.
#![tactic(auto)]

mod amounts;
mod corrected;
mod determination;
mod fit;
mod laws;
mod multiple;
mod point;
mod points;
mod sums;
#[cfg(test)]
mod tests;

pub use amounts::amount;
pub use determination::MOST_DETERMINATION;
pub use fit::Fit;
pub use laws::{
    equal_lines_are_least_squares, inverse_lines_are_least_squares, origin_lines_are_least_squares,
    the_limits,
};
pub use point::{MOST_POINTS, Point};
pub use points::Points;
