//! Limits that several crates share.

/// How many hundredths a whole has: the figures of peaks have factors in hundredths, and checks have limits in them.
pub const HUNDREDTHS: u32 = 100;

/// The greatest amount that a standard states, in the unit of its sequence. The least is 1. This project's own.
pub const MOST_AMOUNT: u32 = 1_000_000_000;
