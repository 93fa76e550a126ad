//! The limits of the tables, in the order in which they are judged, with those on the versions of one name and on the
//! signatures of one sequence, which stand with what is asked. A change that would pass one is refused as full, with
//! the limit. All are this project's own.

/// The most trace names.
pub const MOST_TRACE_NAMES: u64 = 5_000;

/// The most versions of all trace names together.
pub const MOST_TRACE_VERSIONS: u64 = 10_000;

/// The most samples of all versions of all trace names together.
pub const MOST_SAMPLES_IN_ALL: u64 = 20_000_000;

/// The most methods.
pub const MOST_METHODS: u64 = 500;

/// The most versions of all methods together.
pub const MOST_METHOD_VERSIONS: u64 = 10_000;

/// The most sequences.
pub const MOST_SEQUENCES: u64 = 500;

/// The most rows of all sequences together.
pub const MOST_ROWS_IN_ALL: u64 = 5_000;

/// The most bytes of all signed texts together.
pub const MOST_SIGNED_BYTES: u64 = 268_435_456;
