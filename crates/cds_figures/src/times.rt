//! The time of a peak.
ghost use Rattle.std.specs.Prelude.{◌≡◌, ◌+◌, ◌-◌, ◌*◌, ◌^◌, ◌<◌, ◌≤◌, pos, ◌+ℤ◌, ◌-ℤ◌, ◌*ℤ◌, ◌<ℤ◌, length, unsigned_abs};
ghost use Rattle.std.specs.Int.{int_div_euclid};
ghost use Rattle.cds_trace.specs.Standing.{IsCrest};
ghost use Rattle.cds_figures.specs.PeakTime.{peak_time_of, is_at_vertex, vertex_offset};

use cds_base::{LAST_TIME_US, Steps};
use cds_trace::Trace;
use std::sync::ledger::Ledger;

/// The rules under which the time of a peak is that of a vertex; under others it is that of its apex sample.
pub const VERTEX_RULES: u8 = 2;

/// The time of a peak, in microseconds from the start of the trace. Under rules 2, where the apex sample lies strictly
/// inside the range from `start` to `end`, it is that of the vertex of the parabola through the apex sample and its two
/// neighbours, whose distance from the apex sample is rounded down, towards minus infinity. Under other rules, and where
/// the apex is an end of the range, it is that of the apex sample. The range must lie within the trace, and an apex
/// strictly inside it must be above the sample before it and not below the one behind it. The time lies in the range.
/// This project's own rule. It takes no memory. At most three steps.
pub fn peak_time<L: Ledger>(
    start: u32,
    apex: u32,
    end: u32,
    rules: u8,
    trace: &Trace,
    steps: &mut Steps<L>,
) -> u64
    requires rise { start ≤ apex }
    requires fall { apex ≤ end }
    requires within { end < length trace.now.samples }
    requires crest { start < apex → apex < end → IsCrest trace.now apex }

    ensures value { result ≡ peak_time_of trace.now rules start apex end }
    ensures behind { start * trace.now.period ≤ result }
    ensures before { result ≤ end * trace.now.period }
    ensures inside { result ≤ (length trace.now.samples - 1) * trace.now.period }
    ensures least { steps.old ≤ steps.new }
    ensures counted { steps.new ≤ steps.old + 3 }
{
    let time = u64::from(apex) * trace.period();
    if is_at_vertex(rules, start, apex, end) {
        moved(time, vertex_offset(apex, trace, steps))
    } else {
        time
    }
}

/// Whether the vertex counts.
fn is_at_vertex(rules: u8, start: u32, apex: u32, end: u32) -> bool
    ensures { result ≡ is_at_vertex rules start apex end }
{
    rules == VERTEX_RULES && (start < apex && apex < end)
}

/// The time that lies by this offset behind a time.
fn moved(time: u64, offset: i64) -> u64
    requires late { unsigned_abs offset ≤ time }
    requires early { time < 2 ^ 62 }
    ensures { result ≡ unsigned_abs (pos time +ℤ offset) }
{
    if offset < 0 {
        time - offset.unsigned_abs()
    } else {
        time + offset.unsigned_abs()
    }
}

/// How far the vertex at a sample lies behind the sample, in microseconds, rounded down. Three steps.
fn vertex_offset<L: Ledger>(i: u32, trace: &Trace, steps: &mut Steps<L>) -> i64
    requires some { 0 < i }
    requires within { i + 1 < length trace.now.samples }
    requires crest { IsCrest trace.now i }
    ensures value { result ≡ vertex_offset trace.now i }
    ensures small { unsigned_abs result ≤ trace.now.period }
    ensures counted { steps.new ≡ steps.old + 3 }
{
    let samples = trace.len();
    prove!(i + 1 < samples);
    let before = trace.at(i - 1, steps);
    let here = trace.at(i, steps);
    let behind = trace.at(i + 1, steps);
    quotient(
        trace.period(),
        difference(behind, before),
        bend(before, here, behind),
    )
}

/// By how much one sample is above another.
fn difference(high: i32, low: i32) -> i64
    ensures { result ≡ high -ℤ low }
{
    i64::from(high) - i64::from(low)
}

/// By how much twice a sample is above the sum of its two neighbours.
fn bend(before: i32, here: i32, behind: i32) -> i64
    ensures { result ≡ pos 2 *ℤ here -ℤ (before +ℤ behind) }
{
    difference(here, before) + difference(here, behind)
}

/// A period times a rise, over twice a bend, rounded down.
fn quotient(period: u64, rise: i64, bend: i64) -> i64
    requires period { period ≤ LAST_TIME_US }
    requires positive { pos 0 <ℤ bend }
    requires near { unsigned_abs rise ≤ unsigned_abs bend }
    ensures value { result ≡ int_div_euclid (pos period *ℤ rise) (pos 2 *ℤ bend) }
    ensures small { unsigned_abs result ≤ period }
{
    wide_product(period, rise).div_euclid(2 * i128::from(bend)) as i64
}

/// A period times a rise.
fn wide_product(period: u64, rise: i64) -> i128
    ensures { result ≡ pos period *ℤ rise }
{
    i128::from(period) * i128::from(rise)
}
