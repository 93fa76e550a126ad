//! Which peak each component of a method names: the one naming that no wanted pair of a component and a peak
//! blocks. Begin at [`name_peaks`]; [`there_is_exactly_one_naming`] says that there is exactly one such naming.
#![tactic(auto)]

mod laws;
mod names;
#[cfg(test)]
mod tests;
mod wanted;

pub use laws::{the_limits, there_is_exactly_one_naming};
pub use names::{NUMBER_LIMIT, Names, name_peaks};
