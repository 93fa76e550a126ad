//! What integration may cost.

/// The integration of a row takes at most so many steps for each sample of its trace.
pub const ROW_STEPS: usize = 32;

/// The noise of a blank takes at most so many steps for each sample of its trace.
pub const NOISE_STEPS: usize = 2;
