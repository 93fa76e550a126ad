//! Sequences of injections, what their results rest on, and what is signed; and what a user asks of the tables that
//! hold them.
//!
//! Begin at [`Sequence`] and [`Row`] for what is kept, at [`Inputs`] for what results rest on, at [`Signed`] for a
//! signature, at [`Command`] for what is asked and at [`Change`] for what an accepted command does.
#![tactic(auto)]

mod amounts;
mod asked;
mod command;
mod inputs;
mod laws;
mod limits;
mod names;
mod printed;
mod row;
mod same;
mod sequence;
mod signed;

pub use amounts::AmountList;
pub use asked::{AskedAmountList, AskedRow, AskedRowList};
pub use command::{Change, Command};
pub use inputs::{Inputs, Listed, ListedList, ListedRow, ListedRowList};
pub use laws::the_limits;
pub use limits::{
    FIRST_PRINTED, LAST_PRINTED, MOST_AMOUNTS, MOST_BASIS, MOST_DILUTION, MOST_EDITION,
    MOST_PRINTED_BYTES, MOST_ROWS, MOST_SIGNATURES, MOST_STANDARDS, MOST_VERSIONS, TEXT_LIMIT,
};
pub use names::NameList;
pub use printed::is_printed;
pub use row::{Row, RowKind, RowList, copies_of};
pub use sequence::Sequence;
pub use signed::Signed;

#[cfg(test)]
mod tests;
