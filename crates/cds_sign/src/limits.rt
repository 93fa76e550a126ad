//! The limits of rows, of sequences, of what is asked of them and of what a signature says. All are this project's own.

/// The most rows of a sequence. The least is 1.
pub const MOST_ROWS: usize = 200;

/// The most sequences that a sequence lists. The least is 1.
pub const MOST_STANDARDS: usize = 8;

/// The most amounts of a row.
pub const MOST_AMOUNTS: usize = 32;

/// The most versions of one trace name, and of one method; so the greatest version that a sequence or a row may bind,
/// where 0 stands for the latest one.
pub const MOST_VERSIONS: u32 = 1_000;

/// The greatest part of a dilution. The least is 1.
pub const MOST_DILUTION: u32 = 1_000_000;

/// The greatest edition that a command may name: 2^32 - 1. The least is 0, which stands for a sequence that is new.
pub const MOST_EDITION: u64 = 4_294_967_295;

/// The greatest basis that a signature may name: 2^63 - 1. The least is 1.
pub const MOST_BASIS: u64 = 9_223_372_036_854_775_807;

/// The most signatures of a sequence.
pub const MOST_SIGNATURES: u32 = 100;

/// The most bytes of the name and of the meaning of a signature. The least is 1.
pub const MOST_PRINTED_BYTES: usize = 64;

/// The first of the printed bytes of a signature, a space.
pub const FIRST_PRINTED: u8 = b' ';

/// The last of the printed bytes of a signature, a tilde.
pub const LAST_PRINTED: u8 = b'~';

/// A text that changes the tables is shorter than this number of bytes, 2^32.
pub const TEXT_LIMIT: u64 = 1 << 32;
