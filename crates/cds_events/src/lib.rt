//! How the raw peaks of a trace are arranged: which of them are fused into clusters, where a baseline is forced, and
//! where valleys and drop lines cut.
//!
//! Begin at [`arrange`]. `pieces` has the forced baselines, `placed` the raw peaks among them, `runs` which neighbours
//! are fused, `valleys` the parts of a run, and `drops` the drop lines, for which `segments` reads each part once. That
//! runs are maximal is stated by [`runs_are_maximal`].
#![tactic(auto)]

mod arrangement;
mod clusters;
mod drops;
mod laws;
mod pieces;
mod placed;
mod runs;
mod segments;
mod valleys;

pub use arrangement::arrange;
pub use clusters::Clusters;
pub use laws::runs_are_maximal;

#[cfg(test)]
mod tests;
