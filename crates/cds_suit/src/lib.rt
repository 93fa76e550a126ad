//! System suitability: relative standard deviations, the verdict of each check, and the verdict of several. Each value
//! is compared as the exact number that it is, and nothing is rounded before it is compared.
//!
//! Begin at [`check`] for the checks that compare one value of a row, and at [`rsd_at_most`] for those that look at
//! the values of several rows.
#![tactic(auto)]

mod checks;
mod deviation;
mod laws;
mod square;
#[cfg(test)]
mod tests;
mod verdict;

pub use checks::check;
pub use deviation::{rsd_at_most, rsd_floor};
pub use laws::{an_overall_verdict_is_a_fold, the_limits};
pub use square::{MOST_DEVIATION, MOST_VALUES};
pub use verdict::{Verdict, overall};
