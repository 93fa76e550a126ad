//! Where a baseline bends, and where a tangent ends.
//!
//! Begin at [`nodes`]: it gives the nodes of the baseline of a cluster. [`tangent`] gives the sample at which the tangent
//! from a valley ends.
#![tactic(auto)]

mod baselines;
mod hulls;
mod node_list;
mod points;
mod slopes;
mod tangents;

pub use baselines::nodes;
pub use node_list::Nodes;
pub use tangents::tangent;

#[cfg(test)]
mod tests;
