//! Whether the bunched signal rises or falls.
ghost use Rattle.std.specs.Prelude.{◌≡◌, ◌+◌, ◌<◌, ◌≤◌, length};
ghost use Rattle.cds_detect.specs.Bunches.{IsBunchSum};
ghost use Rattle.cds_detect.specs.Classes.{is_steep, class_between, class_of, class_count, bunch_sum};
ghost use Rattle.cds_detect.specs.Spans.{is_up, is_down};
ghost use Rattle.cds_detect.specs.Settings.{settings_of};
ghost use Rattle.cds_rules.specs.Fields.{fields_of};

use crate::slopes::{Slopes, is_inhibited, slopes_at};
use cds_base::{Event, LAST_TIME_US};
use cds_rules::{MOST_BUNCH, Method};
use cds_trace::Trace;

/// A second, in microseconds: slopes are in counts per second, and times in microseconds.
pub(crate) const SECOND_US: u128 = 1_000_000;

/// The class of a bunch: whether the signal rises from it over two bunches, falls, does neither, or no peak may be
/// there. Definitions speak of it, and no answer has one.
#[derive(Clone, Copy, Debug)]
pub enum Class {
    /// An event forbids peaks at the time of the bunch.
    Inhibited,
    /// The signal rises by at least the slope that begins a peak.
    Up,
    /// The signal falls by at least the slope that ends one.
    Down,
    /// Neither.
    Flat,
}

impl Class {
    /// Whether a climb may begin here.
    pub(crate) fn is_up(self) -> bool
        ensures { result ≡ is_up self }
    {
        matches!(self, Class::Up)
    }

    /// Whether the signal falls here.
    pub(crate) fn is_down(self) -> bool
        ensures { result ≡ is_down self }
    {
        matches!(self, Class::Down)
    }
}

/// The class of bunch `at`, whose sum is `near`, and which is `far` two bunches further.
pub(crate) fn class_of(
    trace: &Trace,
    method: &Method,
    manual: &[Event],
    at: u32,
    near: i64,
    far: i64,
) -> Class
    requires at { at < class_count (length trace.now.samples) method.now.bunch }
    requires near { near ≡ bunch_sum trace.now method.now.bunch at }
    requires near_range { IsBunchSum near }
    requires far { far ≡ bunch_sum trace.now method.now.bunch (at + 2) }
    requires far_range { IsBunchSum far }
    ensures { result ≡ class_of trace.now (settings_of (fields_of method.now) manual.now) at }
{
    let period = trace.period();
    let time = u64::from(at * method.bunch) * period;
    let events = method.events.as_slice();
    if is_inhibited(events, time) || is_inhibited(manual, time) {
        return Class::Inhibited;
    }
    let slopes = slopes_at(method, manual, time);
    class_between(slopes, method.bunch, period, near, far)
}

/// The class under these thresholds of a bunch whose sum is `near`, and which is `far` two bunches further.
fn class_between(slopes: Slopes, bunch: u32, period: u64, near: i64, far: i64) -> Class
    requires bunch { bunch ≤ MOST_BUNCH }
    requires period { period ≤ LAST_TIME_US }
    requires near_range { IsBunchSum near }
    requires far_range { IsBunchSum far }
    ensures { result ≡ class_between slopes bunch period near far }
{
    let weight = 2 * u64::from(bunch) * u64::from(bunch) * period;
    if is_steep(slopes.on, weight, near, far) {
        Class::Up
    } else if is_steep(slopes.off, weight, far, near) {
        Class::Down
    } else {
        Class::Flat
    }
}

/// Whether the sum of a bunch rises by at least the slope, in counts per second, from `low` to `high` two bunches
/// further; `weight` is twice the bunch, times the bunch, times the period.
fn is_steep(slope: u32, weight: u64, low: i64, high: i64) -> bool
    requires low_range { IsBunchSum low }
    requires high_range { IsBunchSum high }
    ensures { result ≡ is_steep slope weight low high }
{
    let needed = u128::from(slope) * u128::from(weight);
    high >= low && u128::from((high - low) as u64) * SECOND_US >= needed
}
