//! The figures of peaks, each with the first cause why it is missing.
ghost use Rattle.std.specs.Prelude.{◌≡◌, ◌<◌, ◌≤◌, pos, ◌<ℤ◌, IfOk, unsigned_abs};
ghost use Rattle.std.specs.Option.{ForSome};
ghost use Rattle.cds_base.specs.declared.peak.TheConstants.{HEIGHT_LIMIT};
ghost use Rattle.cds_base.specs.declared.time.TheConstants.{LAST_TIME_US};
ghost use Rattle.cds_integrate.specs.Row.{IsSound};
ghost use Rattle.cds_integrate.specs.Seen.{peak_seen, ratio_seen};
ghost use Rattle.cds_graph.specs.Figures.{CrossesBefore, half_width, resolution_between, plates_in, tailing_in};
ghost use Rattle.cds_graph.specs.Figures.{signal_noise_in, retention_in, peak_valley_in, over_boundary, smaller};

use cds_base::{Missing, Peak, Ratio};
use cds_figures::{peak_valley, plates, resolution, retention, signal_noise, tailing};
use cds_frac::Frac;

/// The number of theoretical plates of a peak, or that its width is cut. After USP General Chapter 621, half-height
/// form of this project.
pub fn plates_in(peak: &Peak) -> Result<Frac, Missing>
    requires { IsSound peak.now }
    ensures { result ≡ plates_in (peak_seen peak.now) }
{
    let width = half_width(peak)?;
    Ok(plates(peak.time_us, width))
}

/// The tailing of a peak in a trace of this period, in microseconds, or that its width is cut. It is taken from the
/// apex sample, whatever the time of the peak is. After USP General Chapter 621, in the form of this project.
pub fn tailing_in(period: u64, peak: &Peak) -> Result<Frac, Missing>
    requires sound { IsSound peak.now }
    requires crosses { CrossesBefore period peak.now }
    ensures { result ≡ tailing_in period (peak_seen peak.now) }
{
    match peak.twentieth {
        Some((left, right)) => Ok(tailing(u64::from(peak.apex) * period, left, right)),
        None => Err(Missing::WidthCut),
    }
}

/// The resolution of two peaks, or that the width of one is cut.
pub(crate) fn resolution_between(one: &Peak, other: &Peak) -> Result<Frac, Missing>
    requires one { IsSound one.now }
    requires other { IsSound other.now }
    ensures { result ≡ resolution_between (peak_seen one.now) (peak_seen other.now) }
{
    let width = half_width(one)?;
    let other_width = half_width(other)?;
    Ok(resolution(one.time_us, width, other.time_us, other_width))
}

/// The signal to noise of a peak over this noise, or why there is no noise.
pub(crate) fn signal_noise_in(noise: Result<u32, Missing>, peak: &Peak) -> Result<Frac, Missing>
    requires sound { IsSound peak.now }
    requires noise { IfOk noise (λ range. 0 < range) }
    ensures { result ≡ signal_noise_in noise (peak_seen peak.now) }
{
    let range = noise?;
    Ok(signal_noise(peak.height, range))
}

/// The retention factor of a peak, or that no dead time is stated.
pub(crate) fn retention_in(dead_time_us: Option<u64>, peak: &Peak) -> Result<Frac, Missing>
    requires sound { IsSound peak.now }
    requires least { ForSome dead_time_us (λ time. 1 ≤ time) }
    requires most { ForSome dead_time_us (λ time. time ≤ LAST_TIME_US) }
    ensures { result ≡ retention_in dead_time_us (peak_seen peak.now) }
{
    match dead_time_us {
        Some(dead) => Ok(retention(peak.time_us, dead)),
        None => Err(Missing::NoDeadTime),
    }
}

/// The peak to valley of a peak, or that it has no valley before it.
pub(crate) fn peak_valley_in(peak: &Peak) -> Result<Frac, Missing>
    requires { IsSound peak.now }
    ensures { result ≡ peak_valley_in (peak_seen peak.now) }
{
    match peak.valley {
        Some((before, boundary)) => Ok(over_boundary(before, peak.height, boundary)),
        None => Err(Missing::NoValley),
    }
}

/// The width of a peak at half its height, in microseconds, or that it is cut.
fn half_width(peak: &Peak) -> Result<u64, Missing>
    requires { IsSound peak.now }
    ensures value { result ≡ half_width (peak_seen peak.now) }
    ensures some { IfOk result (λ width. 0 < width) }
    ensures most { IfOk result (λ width. width ≤ LAST_TIME_US) }
{
    match peak.half {
        Some((left, right)) => Ok(right - left),
        None => Err(Missing::WidthCut),
    }
}

/// The smaller of two heights over that of the boundary of the two.
fn over_boundary(before: Ratio, height: Ratio, boundary: Ratio) -> Frac
    requires before { unsigned_abs before.num < HEIGHT_LIMIT }
    requires height { unsigned_abs height.num < HEIGHT_LIMIT }
    requires boundary { unsigned_abs boundary.num < HEIGHT_LIMIT }
    requires positive { pos 0 <ℤ boundary.num }
    ensures { result ≡ over_boundary (smaller (ratio_seen before) (ratio_seen height)) (ratio_seen boundary) }
{
    peak_valley(smaller(before, height), boundary)
}

/// The smaller of two heights.
fn smaller(one: Ratio, other: Ratio) -> Ratio
    requires one { unsigned_abs one.num < HEIGHT_LIMIT }
    requires other { unsigned_abs other.num < HEIGHT_LIMIT }
    ensures value { ratio_seen result ≡ smaller (ratio_seen one) (ratio_seen other) }
    ensures small { unsigned_abs result.num < HEIGHT_LIMIT }
{
    let lowest = Frac::new(one.num, i128::from(one.den));
    let other_lowest = Frac::new(other.num, i128::from(other.den));
    if lowest.cmp(&other_lowest).is_le() {
        one
    } else {
        other
    }
}
