//! The limits of a message: this project's own.

/// The most bytes of a head, with the empty lines before it.
pub const MOST_HEAD_BYTES: usize = 16_384;

/// The most fields of a head.
pub const MOST_FIELDS: usize = 64;

/// The most bytes of a body.
pub const MOST_BODY_BYTES: usize = 16_777_216;

/// The most digits of a `Content-Length`.
pub const MOST_LENGTH_DIGITS: usize = 19;

/// How many bytes are held at most: one greatest message.
pub const MESSAGE_ROOM: usize = MOST_HEAD_BYTES + MOST_BODY_BYTES;
