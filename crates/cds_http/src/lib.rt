//! HTTP/1.x requests out of a stream, however it was cut into pieces.
//!
//! Begin at [`Messages`]: feed it what has come, ask for what is [`Next`], and drop each message when it is done
//! with. What it answers is fixed by the bytes of the stream alone: the definition of a stream's items, which the
//! contracts cite, looks at the whole byte string and knows nothing of pieces or buffers.
#![tactic(auto)]

mod fields;
mod head;
mod known;
mod laws;
mod limits;
mod lines;
mod messages;
mod next;
#[cfg(test)]
mod tests;

pub use laws::{
    continue_comes_once, decided_items_stay, each_stream_has_items, one_answer, one_list_of_items,
    request_stays, the_limits,
};
pub use limits::{MESSAGE_ROOM, MOST_BODY_BYTES, MOST_FIELDS, MOST_HEAD_BYTES, MOST_LENGTH_DIGITS};
pub use messages::Messages;
pub use next::{Fault, Next, Request, Span};
