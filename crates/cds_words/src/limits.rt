//! What the options of a command may be.

/// The most digits of a number.
pub const MOST_DIGITS: usize = 20;

/// The greatest port.
pub const MOST_PORT: u32 = 65_535;

/// The most connections that a server serves.
pub const MOST_CONNECTIONS: u32 = 1_000_000;

/// The most sample rows of a demo.
pub const MOST_SAMPLE_ROWS: u32 = 20;
