//! Where the signal crosses a level of a peak's height.
ghost use Rattle.std.specs.Prelude.{◌≡◌, ◌+◌, ◌-◌, ◌*◌, ◌/◌, ◌^◌, ◌<◌, ◌≤◌, pos, ◌-ℤ◌, ◌*ℤ◌, ◌<ℤ◌, length, unsigned_abs, IfSome};
ghost use Rattle.cds_base.specs.declared.time.TheConstants.{LAST_TIME_US};
ghost use Rattle.cds_trace.specs.Heights.{height_by_span};
ghost use Rattle.cds_figures.specs.Crossings.{scaled_height, scaled_level, meeting_time, left_crossing, right_crossing, crossings_of};

use cds_base::{Line, Steps};
use cds_trace::{MOST_SAMPLES, Trace, height_by_span};
use std::sync::ledger::Ledger;

/// Levels are stated in parts of a peak's height of which the height has this many.
pub(crate) const TWENTIETHS: u8 = 20;

/// A level of a peak's height and the height at the apex, both times twenty times the line's span, in counts.
#[derive(Clone, Copy)]
struct Level {
    at: i64,
    top: i64,
}

/// So many times a height. Heights are times a line's span, in counts.
fn times(height: i64, count: u8) -> i64
    requires { unsigned_abs height ≤ 2 ^ 32 * MOST_SAMPLES }
    ensures value { result ≡ height *ℤ pos count }
    ensures small { unsigned_abs result ≤ 2 ^ 32 * MOST_SAMPLES * count }
{
    height * i64::from(count)
}

/// The height at the sample `i`, times twenty times the line's span. One step.
fn scaled_height<L: Ledger>(i: u32, line: &Line, trace: &Trace, steps: &mut Steps<L>) -> i64
    requires left { line.now.from ≤ i }
    requires right { i ≤ line.now.to }
    requires within { line.now.to < length trace.now.samples }
    ensures value { result ≡ scaled_height trace.now line.now i }
    ensures small { unsigned_abs result ≤ 2 ^ 32 * MOST_SAMPLES * TWENTIETHS }
    ensures counted { steps.new ≡ steps.old + 1 }
{
    times(height_by_span(i, line, trace, steps), TWENTIETHS)
}

/// The level of so many twentieths of the height at the apex. One step.
fn level_of<L: Ledger>(
    apex: u32,
    line: &Line,
    twentieths: u8,
    trace: &Trace,
    steps: &mut Steps<L>,
) -> Level
    requires left { line.now.from ≤ apex }
    requires right { apex ≤ line.now.to }
    requires within { line.now.to < length trace.now.samples }
    requires some { 1 ≤ twentieths }
    requires few { twentieths ≤ 19 }
    requires high { pos 0 <ℤ height_by_span trace.now line.now apex }
    ensures at { result.at ≡ scaled_level trace.now line.now apex twentieths }
    ensures top { result.top ≡ scaled_height trace.now line.now apex }
    ensures below { result.at <ℤ result.top }
    ensures small { unsigned_abs result.at ≤ 2 ^ 32 * MOST_SAMPLES * TWENTIETHS }
    ensures counted { steps.new ≡ steps.old + 1 }
{
    let height = height_by_span(apex, line, trace, steps);
    Level {
        at: times(height, twentieths),
        top: times(height, TWENTIETHS),
    }
}

/// As much of a period as a part is of a whole, rounded down.
fn share(period: u64, part: u64, whole: u64) -> u64
    requires some { 0 < whole }
    requires within { part ≤ whole }
    ensures value { result ≡ period * part / whole }
    ensures most { result ≤ period }
    ensures short { part < whole → 0 < period → result < period }
{
    (u128::from(period) * u128::from(part) / u128::from(whole)) as u64
}

/// The time at which the straight line from the height `from` at the sample `i` to the height `to` at the next one meets
/// the level between the two, in microseconds, rounded down.
fn meeting_time(period: u64, i: u32, from: i64, to: i64, level: i64) -> u64
    requires apart { 0 < unsigned_abs (to -ℤ from) }
    requires between { unsigned_abs (level -ℤ from) ≤ unsigned_abs (to -ℤ from) }
    requires last { (i + 1) * period ≤ LAST_TIME_US }
    ensures value { result ≡ meeting_time period i from to level }
    ensures least { i * period ≤ result }
    ensures most { result ≤ (i + 1) * period }
    ensures short { unsigned_abs (level -ℤ from) < unsigned_abs (to -ℤ from) → 0 < period → result < (i + 1) * period }
{
    u64::from(i) * period + share(period, level.abs_diff(from), to.abs_diff(from))
}

/// The crossing left of the apex. One step for each sample from the start to before the apex, at most.
fn left_crossing<L: Ledger>(
    start: u32,
    apex: u32,
    line: &Line,
    level: Level,
    trace: &Trace,
    steps: &mut Steps<L>,
) -> Option<u64>
    requires order { start ≤ apex }
    requires left { line.now.from ≤ start }
    requires right { apex ≤ line.now.to }
    requires within { line.now.to < length trace.now.samples }
    requires top { level.top ≡ scaled_height trace.now line.now apex }
    requires below { level.at <ℤ level.top }
    ensures value { result ≡ left_crossing trace.now line.now level.at start apex }
    ensures before { IfSome result (λ t. t < apex * trace.now.period) }
    ensures least { steps.old ≤ steps.new }
    ensures counted { steps.new ≤ steps.old + (apex - start) }
{
    let samples = trace.len();
    prove!(line.to < samples);
    let mut inner = level.top;
    for i in (start..apex).rev() {
        let outer = scaled_height(i, line, trace, steps);
        if outer <= level.at {
            return Some(meeting_time(trace.period(), i, outer, inner, level.at));
        }
        inner = outer;
    }
    None
}

/// The crossing right of the apex. One step for each sample behind the apex up to the end, at most.
fn right_crossing<L: Ledger>(
    apex: u32,
    end: u32,
    line: &Line,
    level: Level,
    trace: &Trace,
    steps: &mut Steps<L>,
) -> Option<u64>
    requires order { apex ≤ end }
    requires left { line.now.from ≤ apex }
    requires right { end ≤ line.now.to }
    requires within { line.now.to < length trace.now.samples }
    requires top { level.top ≡ scaled_height trace.now line.now apex }
    requires below { level.at <ℤ level.top }
    ensures value { result ≡ right_crossing trace.now line.now level.at apex end }
    ensures behind { IfSome result (λ t. apex * trace.now.period ≤ t) }
    ensures within { IfSome result (λ t. t ≤ end * trace.now.period) }
    ensures least { steps.old ≤ steps.new }
    ensures counted { steps.new ≤ steps.old + (end - apex) }
{
    let samples = trace.len();
    prove!(line.to < samples);
    let mut inner = level.top;
    for i in apex + 1..end + 1 {
        let outer = scaled_height(i, line, trace, steps);
        if outer <= level.at {
            return Some(meeting_time(trace.period(), i - 1, inner, outer, level.at));
        }
        inner = outer;
    }
    None
}

/// Where the signal crosses a level of the peak's height, left and right of the apex, in microseconds from the start of
/// the trace, each rounded down. `level` is in twentieths of the height, from 1 to 19: 10 is half height. The left one
/// lies between the last sample from `start` to before the apex that isn't above the level and the next sample, the right
/// one between the first such sample behind the apex up to `end` and the sample before it; in between the signal is taken
/// as straight. None exactly where there is no such sample on a side. The range must lie within the line and the line, of
/// which `from` is below `to`, within the trace, and the height at the apex must be positive. After USP General Chapter
/// 621, in this project's half-height form. It takes no memory. At most one step for each sample from `start` to `end`.
pub fn crossings<L: Ledger>(
    start: u32,
    apex: u32,
    end: u32,
    line: &Line,
    level: u8,
    trace: &Trace,
    steps: &mut Steps<L>,
) -> Option<(u64, u64)>
    requires rise { start ≤ apex }
    requires fall { apex ≤ end }
    requires left { line.now.from ≤ start }
    requires right { end ≤ line.now.to }
    requires long { line.now.from < line.now.to }
    requires within { line.now.to < length trace.now.samples }
    requires high { pos 0 <ℤ height_by_span trace.now line.now apex }
    requires some { 1 ≤ level }
    requires few { level ≤ 19 }

    ensures value { result ≡ crossings_of trace.now line.now start apex end level }
    ensures wide { IfSome result (λ times. times.0 < times.1) }
    ensures before { IfSome result (λ times. times.0 < apex * trace.now.period) }
    ensures behind { IfSome result (λ times. apex * trace.now.period ≤ times.1) }
    ensures inside { IfSome result (λ times. times.1 ≤ (length trace.now.samples - 1) * trace.now.period) }
    ensures least { steps.old ≤ steps.new }
    ensures counted { steps.new ≤ steps.old + (end - start + 1) }
{
    let level = level_of(apex, line, level, trace, steps);
    let Some(left) = left_crossing(start, apex, line, level, trace, steps) else {
        return None;
    };
    let Some(right) = right_crossing(apex, end, line, level, trace, steps) else {
        return None;
    };
    Some((left, right))
}
