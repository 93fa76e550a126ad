//! Where the records of the data system are kept: a store is a list of records, each a byte string, to which a
//! record is appended. A store is loaded once and then put to.
//!
//! Begin at [`Keeper`] for what every store promises, and at [`MapKeeper`] for the one in memory.
#![tactic(auto)]

mod error;
mod keeper;
mod laws;
mod map_keeper;
mod no_fail;
mod records;

pub use error::{LoadError, PutError};
pub use keeper::{Keeper, RECORD_LIMIT};
pub use laws::the_limits;
pub use map_keeper::MapKeeper;
pub use no_fail::NoFailKeeper;
pub use records::Records;

#[cfg(test)]
mod tests;
