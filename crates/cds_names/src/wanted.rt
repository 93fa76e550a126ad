ghost use Rattle.std.specs.Prelude.{◌≡◌, ◌<◌, ◌≤◌, ◌++◌, ◌↔◌, map, length, IfOk, OnOk, Contains, slice_get};
ghost use Rattle.std.specs.List.{AllWithin};
ghost use Rattle.std.specs.List.Sorted.{IsNonDecreasingBy};
ghost use Rattle.cds_names.specs.declared.names.TheConstants.{NUMBER_LIMIT};
ghost use Rattle.cds_names.specs.Naming.{IsWanted};
ghost use Rattle.cds_names.specs.Wanting.{IsInWindow, IsBeforeWindow, IsAfterWindow, IsInOrder, pair_of};

use cds_base::{NoMemory, Window};
use std::alloc::Global;
use std::marker::Model;

/// A component and a peak in its window, and how far the peak's time is from the expected time, in microseconds.
/// Ordered by the distance, then by the component, then by the peak. Seen as a plain record.
#[derive(Clone, Copy, Debug, PartialEq, Eq, PartialOrd, Ord)]
pub struct Wanted {
    pub distance: u64,
    pub component: u32,
    pub peak: u32,
}

impl Model for Wanted {
    ghost use Rattle.cds_names.specs.Naming.{Pair as Shown};

    ghost Value = { Shown };

    ghost view = { λ p. record { distance = p.distance; component = p.component; peak = p.peak } };

    ghost inverse = { λ p. record { distance = p.distance; component = p.component; peak = p.peak } };
}

/// The time of a peak, in microseconds from the start of the trace, and the peak's place. Seen as a plain record.
#[derive(Clone, Copy, Debug)]
pub struct PeakTime {
    pub time: u64,
    pub peak: u32,
}

impl Model for PeakTime {
    ghost use Rattle.cds_names.specs.Wanting.{PeakTime as Shown};

    ghost Value = { Shown };

    ghost view = { λ p. record { time = p.time; peak = p.peak } };

    ghost inverse = { λ p. record { time = p.time; peak = p.peak } };
}

/// The wanted pairs, in their order. The times are sorted once, so that each window finds its own by halving.
pub fn wanted_pairs(
    alloc: Global,
    windows: &[Window],
    times: &[u64],
) -> Result<Vec<Wanted>, NoMemory>
    requires few_windows { length windows.now < NUMBER_LIMIT }
    requires few_times { length times.now < NUMBER_LIMIT }
    ensures pairs { IfOk result (λ v. (q : _) → Contains v.items q ↔ IsWanted windows.now times.now q) }
    ensures in_order { IfOk result (λ v. IsInOrder v.items) }
{
    let peaks = times_in_order(alloc, times)?;
    let mut pairs = Vec::new(alloc);
    for (component, window) in windows.iter().enumerate() {
        let near = near_times(&peaks, window);
        push_pairs(&mut pairs, component as u32, window, near)?;
    }
    pairs.sort_unstable();
    Ok(pairs)
}

/// The times with their places, in the order of their times.
fn times_in_order(alloc: Global, times: &[u64]) -> Result<Vec<PeakTime>, NoMemory>
    requires { length times.now < NUMBER_LIMIT }
    ensures each { IfOk result (λ v. (x : _) → Contains v.items x ↔ (slice_get times.now x.peak ≡ Some x.time)) }
    ensures in_order { IfOk result (λ v. IsNonDecreasingBy (λ x. x.time) v.items) }
{
    let mut peaks = Vec::new(alloc);
    for (peak, time) in times.iter().enumerate() {
        peaks.push(PeakTime {
            time: *time,
            peak: peak as u32,
        })?;
    }
    peaks.sort_unstable_by_key(|peak| peak.time);
    Ok(peaks)
}

/// The times that lie in the window.
fn near_times<'a>(peaks: &'a [PeakTime], window: &Window) -> &'a [PeakTime]
    requires { IsNonDecreasingBy (λ x. x.time) peaks.now }
    ensures { (x : _) → Contains result.now x ↔ (Contains peaks.now x × IsInWindow window.now x) }
{
    let first = window_start(peaks, window);
    let end = window_end(peaks, window);
    let (up_to_end, _) = peaks.split_at(end);
    let (_, near) = up_to_end.split_at(first);
    near
}

/// The place of the first peak that doesn't come before the window.
fn window_start(peaks: &[PeakTime], window: &Window) -> usize
    requires { IsNonDecreasingBy (λ x. x.time) peaks.now }
    ensures bound { result ≤ length peaks.now }
    ensures before { AllWithin (IsBeforeWindow window.now) peaks.now 0 result }
    ensures from { AllWithin (λ x. IsBeforeWindow window.now x → ⊥) peaks.now result (length peaks.now) }
{
    peaks.partition_point(|peak| window.time_us.saturating_sub(peak.time) > window.width_us)
}

/// The place of the first peak that comes after the window.
fn window_end(peaks: &[PeakTime], window: &Window) -> usize
    requires { IsNonDecreasingBy (λ x. x.time) peaks.now }
    ensures bound { result ≤ length peaks.now }
    ensures before { AllWithin (λ x. IsAfterWindow window.now x → ⊥) peaks.now 0 result }
    ensures from { AllWithin (IsAfterWindow window.now) peaks.now result (length peaks.now) }
{
    peaks.partition_point(|peak| peak.time.saturating_sub(window.time_us) <= window.width_us)
}

/// Appends the pair of the component and each of the times.
fn push_pairs(
    pairs: &mut Vec<Wanted>,
    component: u32,
    window: &Window,
    near: &[PeakTime],
) -> Result<(), NoMemory>
    ensures { OnOk result (pairs.new.items ≡ pairs.old.items ++ map (pair_of window.now component) near.now) }
{
    for peak in near {
        pairs.push(Wanted {
            distance: window.time_us.abs_diff(peak.time),
            component,
            peak: peak.peak,
        })?;
    }
    Ok(())
}
