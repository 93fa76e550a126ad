//! A point of a calibration.
/// The most points of a calibration.
pub const MOST_POINTS: usize = 64;

/// A point of a calibration: the amount that a standard states, and the reported area of its peak in count
/// milliseconds.
#[derive(Clone, Copy, Debug, PartialEq, Eq)]
pub struct Point {
    pub amount: u32,
    pub area: u64,
}
