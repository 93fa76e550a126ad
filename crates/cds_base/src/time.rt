//! Times: those of events are in milliseconds, those of samples and peaks in microseconds.

/// A millisecond, in microseconds.
pub const MILLISECOND_US: u64 = 1000;

/// The latest time of a sample, in microseconds from the start of its trace: four hours.
pub const LAST_TIME_US: u64 = 14_400_000_000;

/// The same in milliseconds: the latest time of an event.
pub const LAST_TIME_MS: u32 = 14_400_000;
