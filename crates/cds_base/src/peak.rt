ghost use Rattle.std.specs.Prelude.{◌≤◌};

/// Reported areas are below this, in count milliseconds. The longest trace has at most 200,000,000 counts above its
/// line for 14,400,000 milliseconds.
pub const AREA_LIMIT: u64 = 1 << 52;

/// The numerators of heights are below this, in absolute value.
pub const HEIGHT_LIMIT: u128 = 1 << 60;

/// A raw peak as the detector finds it, in samples from the start of the trace: where it begins, its first
/// greatest sample, and where it ends.
#[derive(Clone, Copy, Debug, PartialEq, Eq)]
pub struct RawPeak {
    pub start: u32,
    pub apex: u32,
    pub end: u32,
}

/// A straight baseline from the sample `from` at the level `from_y` to the sample `to` at the level `to_y`.
/// Levels are in counts.
#[derive(Clone, Copy, Debug, PartialEq, Eq)]
pub struct Line {
    pub from: u32,
    pub from_y: i32,
    pub to: u32,
    pub to_y: i32,
}

/// An exact fraction with a divisor of at least 1, not reduced. Ratios are compared as numbers.
#[derive(Clone, Copy, Debug)]
pub struct Ratio {
    pub num: i128,
    pub den: u64,
    ghost positive: { 1 ≤ den },
}

/// Where a component is looked for: the expected time, and how far from it a peak may lie, both in microseconds.
#[derive(Clone, Copy, Debug, PartialEq, Eq)]
pub struct Window {
    pub time_us: u64,
    pub width_us: u64,
}

/// Why a value cannot be stated. The numbers of the causes are 1 to 11, in this order.
#[derive(Clone, Copy, Debug, PartialEq, Eq)]
pub enum Missing {
    /// The component has no peak in the row.
    NoPeak,
    /// The signal stays above the level up to an end of the peak's range.
    WidthCut,
    /// The method states no noise window, or the blank has no noise in it.
    NoNoise,
    /// The method states no dead time.
    NoDeadTime,
    /// The sequence has no blank row.
    NoBlank,
    /// There are too few values or points.
    TooFew,
    /// The calibration line does not rise.
    NotRising,
    /// A number passes the limits of exact arithmetic.
    Unfit,
    /// The row has more raw peaks than a row may have.
    TooManyPeaks,
    /// The values sum to zero.
    ZeroSum,
    /// The peak has no valley before it.
    NoValley,
}

/// An integrated peak of a row. Samples count from the start of the trace.
#[derive(Clone, Copy, Debug)]
pub struct Peak {
    /// The first sample of its range.
    pub start: u32,
    /// Its apex: the first greatest sample of its raw peak, or of the piece that a drop line cut off.
    pub apex: u32,
    /// The last sample of its range.
    pub end: u32,
    /// Whether it is skimmed off its parent by a tangent.
    pub rider: bool,
    /// The straight line below it: the baseline, or the tangent of a rider.
    pub line: Line,
    /// Its time, in microseconds: that of its apex under the rules of its method.
    pub time_us: u64,
    /// Its exact area, in count samples.
    pub area: Ratio,
    /// Its reported area, in count milliseconds, rounded down.
    pub units: u64,
    /// Its exact height, in counts.
    pub height: Ratio,
    /// Where the signal crosses half its height, left and right, in microseconds.
    pub half: Option<(u64, u64)>,
    /// Where the signal crosses one twentieth of its height, left and right, in microseconds.
    pub twentieth: Option<(u64, u64)>,
    /// The height of the part before it and the height of the boundary between the two; None where it has no
    /// valley before it.
    pub valley: Option<(Ratio, Ratio)>,
    /// The number of the method's component that it is named.
    pub component: Option<u32>,
}
