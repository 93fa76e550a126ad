//! Responses: replies and their bytes, the fixed responses, and how a text is written to a sink and a source is read. It
//! knows no tables. Begin at [`Reply`] and [`response_text`]; [`send_fixed`] writes what needs no memory.
#![tactic(auto)]

mod fixed;
mod laws;
mod piece;
mod receiving;
mod reply;
mod response;
mod sending;

pub use fixed::{Fixed, send_fixed};
pub use laws::the_limits;
pub use piece::{PIECE_BYTES, new_piece};
pub use receiving::{MOST_SOURCE_BYTES, ReceiveError, receive};
pub use reply::{Content, Reply, answered, refusal, word};
pub use response::response_text;
pub use sending::{send, send_parts};

#[cfg(test)]
mod tests;
