//! The limits of a method. Each is the greatest value that is allowed; all are this project's own.

/// The most samples that make one bunch.
pub const MOST_BUNCH: u32 = 64;

/// The most flat bunches that a climb may pass over.
pub const MOST_PLATEAU: u32 = 1_000;

/// The most bunches that may lie between two peaks that are fused into one cluster.
pub const MOST_FUSE: u32 = 1_000;

/// The greatest least area, in count milliseconds.
pub const MOST_AREA: u64 = 4_000_000_000_000_000;

/// The greatest least height, in counts.
pub const MOST_HEIGHT: u32 = 200_000_000;

/// The first edition of the rules of integration: that of a method that states none.
pub const FIRST_RULES: u8 = 1;

/// The last edition of the rules of integration.
pub const LAST_RULES: u8 = 2;

/// The most components of a method.
pub const MOST_COMPONENTS: usize = 32;

/// The most checks of a method.
pub const MOST_CHECKS: usize = 64;

/// The greatest limit of a check other than the one of determination, in the unit of its kind.
pub const MOST_LIMIT: u32 = 1_000_000;

/// The greatest limit of a check of determination, in ten-thousandths.
pub const MOST_R2_LIMIT: u32 = 10_000;

/// The most bytes of a method's text.
pub const MOST_METHOD_BYTES: usize = 65_536;
