//! The words of the command line: the command that they state, and the numbers that its options write.
//!
//! Begin at [`read_words`].
#![tactic(auto)]

mod command;
mod laws;
mod limits;
mod number;
mod options;

pub use command::{CommandLine, PeaksOptions, read_words};
pub use laws::the_limits;
pub use limits::{MOST_CONNECTIONS, MOST_DIGITS, MOST_PORT, MOST_SAMPLE_ROWS};
pub use number::{number_in, number_of};

#[cfg(test)]
mod tests;
