//! The figures of peaks.
ghost use Rattle.std.specs.Prelude.{◌≡◌, ◌+◌, ◌-◌, ◌*◌, ◌<◌, ◌≤◌, pos, ◌*ℤ◌, ◌<ℤ◌, unsigned_abs};
ghost use Rattle.cds_figures.specs.Figures.{resolution_of, plates_of, tailing_of, signal_noise_of, retention_of, peak_valley_of};

use cds_base::{HEIGHT_LIMIT, HUNDREDTHS, LAST_TIME_US, Ratio};
use cds_frac::Frac;

/// The factor of resolution, 1.18, in hundredths.
pub(crate) const RESOLUTION_HUNDREDTHS: u64 = 118;

/// The factor of plates, 5.54, in hundredths.
pub(crate) const PLATES_HUNDREDTHS: u64 = 554;

/// The resolution of two peaks, 1.18 |t2 - t1| / (w1 + w2), with their times and their widths at half height in
/// microseconds. Each is at most `LAST_TIME_US`, and one width is positive. After USP General Chapter 621, half-height
/// form of this project.
pub fn resolution(t1: u64, w1: u64, t2: u64, w2: u64) -> Frac
    requires first_time { t1 ≤ LAST_TIME_US }
    requires first_width { w1 ≤ LAST_TIME_US }
    requires second_time { t2 ≤ LAST_TIME_US }
    requires second_width { w2 ≤ LAST_TIME_US }
    requires positive { 0 < w1 + w2 }
    ensures { result ≡ resolution_of t1 w1 t2 w2 }
{
    let distance = i128::from(t1.abs_diff(t2));
    Frac::new(
        i128::from(RESOLUTION_HUNDREDTHS) * distance,
        i128::from(HUNDREDTHS) * i128::from(w1 + w2),
    )
}

/// The number of theoretical plates, 5.54 t^2 / w^2, with the peak's time and the width at half height in microseconds,
/// both at most `LAST_TIME_US`, and the width positive. After USP General Chapter 621, half-height form of this
/// project.
pub fn plates(t: u64, w: u64) -> Frac
    requires time { t ≤ LAST_TIME_US }
    requires width { w ≤ LAST_TIME_US }
    requires positive { 0 < w }
    ensures { result ≡ plates_of t w }
{
    let (t, w) = (i128::from(t), i128::from(w));
    Frac::new(
        i128::from(PLATES_HUNDREDTHS) * (t * t),
        i128::from(HUNDREDTHS) * (w * w),
    )
}

/// The tailing of a peak, w / (2 d): its width at one twentieth of its height, which reaches from `left` to `right`, over
/// twice the distance of `left` from the apex sample, whose time is `apex_us`, whatever the rules of the peak's time are.
/// Times are in microseconds, at most `LAST_TIME_US`, and `left` is before the apex sample. After USP General Chapter 621, in the form of this project.
pub fn tailing(apex_us: u64, left: u64, right: u64) -> Frac
    requires time { apex_us ≤ LAST_TIME_US }
    requires width { right ≤ LAST_TIME_US }
    requires positive { left < apex_us }
    ensures { result ≡ tailing_of apex_us left right }
{
    let width = i128::from(right) - i128::from(left);
    Frac::new(width, 2 * i128::from(apex_us - left))
}

/// The signal to noise of a peak, 2 H / h, with its height and the noise of the blank in counts. The noise is positive,
/// and the numerator of the height below `HEIGHT_LIMIT`. After USP General Chapter 621, in the form of this project.
pub fn signal_noise(height: Ratio, h: u32) -> Frac
    requires height { unsigned_abs height.num < HEIGHT_LIMIT }
    requires positive { 0 < h }
    ensures { result ≡ signal_noise_of height h }
{
    Frac::new(2 * height.num, i128::from(height.den) * i128::from(h))
}

/// The retention factor of a peak, (t - tM) / tM, with its time and the dead time in microseconds, both at most
/// `LAST_TIME_US`, and the dead time positive. It is negative for a peak before the dead time. After USP General
/// Chapter 621, in the form of this project.
pub fn retention(t: u64, dead: u64) -> Frac
    requires time { t ≤ LAST_TIME_US }
    requires dead { dead ≤ LAST_TIME_US }
    requires positive { 0 < dead }
    ensures { result ≡ retention_of t dead }
{
    let (t, dead) = (i128::from(t), i128::from(dead));
    Frac::new(t - dead, dead)
}

/// The ratio of peak to valley, p / v: the smaller height of two neighbouring peaks over the height of the boundary
/// between them. The boundary's height is positive, and both numerators are below `HEIGHT_LIMIT`. After USP General Chapter
/// 621, in the form of this project.
pub fn peak_valley(p: Ratio, v: Ratio) -> Frac
    requires peak { unsigned_abs p.num < HEIGHT_LIMIT }
    requires valley { unsigned_abs v.num < HEIGHT_LIMIT }
    requires positive { pos 0 <ℤ v.num }
    ensures { result ≡ peak_valley_of p v }
{
    Frac::new(product(p.num, v.den), product(v.num, p.den))
}

/// A numerator times a divisor.
fn product(num: i128, den: u64) -> i128
    requires { unsigned_abs num < HEIGHT_LIMIT }
    ensures value { result ≡ num *ℤ pos den }
    ensures small { unsigned_abs result ≤ HEIGHT_LIMIT * den }
{
    num * i128::from(den)
}
