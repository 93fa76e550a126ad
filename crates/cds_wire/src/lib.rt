//! The JSON of requests and replies: what a request's body states, with its first refusal, and the text of a reply.
//!
//! Begin at [`read_freeze`] and [`read_sequence`] for a body and at [`reply`] for a reply.
#![tactic(auto)]

mod answer;
mod body;
mod change;
mod error;
mod freeze;
mod laws;
mod limits;
mod replies;
mod row;
mod sequence;
mod sign;

pub use answer::{Answer, Shown};
pub use change::{read_events, read_reprocess};
pub use error::BodyError;
pub use freeze::read_freeze;
pub use laws::the_limits;
pub use limits::{LEAST_ASKED_AMOUNT, MOST_ASKED_AMOUNT, MOST_FREEZE_VERSION, MOST_SIGN_NUMBER};
pub use replies::reply;
pub use sequence::read_sequence;
pub use sign::{SignBody, read_sign};

#[cfg(test)]
mod body_tests;
#[cfg(test)]
mod reply_tests;
