//! A store of records in a file that SQLite reads.
//!
//! Begin at [`SqlKeeper`].
#![tactic(auto)]

mod connection;
mod keeper;

pub use keeper::SqlKeeper;

#[cfg(test)]
mod tests;
