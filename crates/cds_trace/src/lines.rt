//! Straight lines below a signal: chords, the level of a line at a sample, and the height of the signal over it. Levels
//! and heights are exact: they stand times the line's span, which is the number of samples from one end to the other.
ghost use Rattle.std.specs.Prelude.{◌≡◌, ◌+◌, ◌-◌, ◌*◌, ◌^◌, ◌<◌, ◌≤◌, pos, ◌*ℤ◌, length, unsigned_abs};
ghost use Rattle.cds_base.specs.declared.peak.TheConstants.{HEIGHT_LIMIT};
ghost use Rattle.cds_trace.specs.Signal.{IsSample};
ghost use Rattle.cds_trace.specs.Heights.{chord, span, level_by_span, height_by_span};

use crate::trace::{MOST_SAMPLES, Trace};
use cds_base::{Line, Steps};
use std::sync::ledger::Ledger;

/// The straight line from the sample `a` of the signal to the sample `b`, both within the trace. It takes no memory. Two
/// steps.
pub fn chord<L: Ledger>(a: u32, b: u32, trace: &Trace, steps: &mut Steps<L>) -> Line
    requires from { a < length trace.now.samples }
    requires to { b < length trace.now.samples }

    ensures value { result ≡ chord trace.now a b }
    ensures from_level { IsSample result.from_y }
    ensures to_level { IsSample result.to_y }
    ensures counted { steps.new ≡ steps.old + 2 }
{
    Line {
        from: a,
        from_y: trace.at(a, steps),
        to: b,
        to_y: trace.at(b, steps),
    }
}

/// The height at the sample `i`, which is the signal minus the line there, times the line's span, in counts. The sample
/// must lie within the line, and the line within the trace. This project's own rule. It takes no memory. One step.
pub fn height_by_span<L: Ledger>(i: u32, line: &Line, trace: &Trace, steps: &mut Steps<L>) -> i64
    requires left { line.now.from ≤ i }
    requires right { i ≤ line.now.to }
    requires within { line.now.to < length trace.now.samples }

    ensures value { result ≡ height_by_span trace.now line.now i }
    ensures small { unsigned_abs result ≤ 2 ^ 32 * MOST_SAMPLES }
    ensures low { unsigned_abs result < HEIGHT_LIMIT }
    ensures counted { steps.new ≡ steps.old + 1 }
{
    let samples = trace.len();
    prove!(line.to < samples);
    let signal = product(trace.at(i, steps), line.to - line.from);
    signal - level_by_span(line, i)
}

/// The level of a line at the sample `i`, which must lie within the line, times the line's span, in counts. This
/// project's own rule. It takes no memory, and no step.
pub fn level_by_span(line: &Line, i: u32) -> i64
    requires left { line.now.from ≤ i }
    requires right { i ≤ line.now.to }

    ensures value { result ≡ level_by_span line.now i }
    ensures small { unsigned_abs result ≤ 2 ^ 31 * span line.now }
{
    product(line.from_y, line.to - i) + product(line.to_y, i - line.from)
}

/// A number of counts times a number of samples.
fn product(counts: i32, samples: u32) -> i64
    ensures value { result ≡ counts *ℤ pos samples }
    ensures small { unsigned_abs result ≤ 2 ^ 31 * samples }
{
    i64::from(counts) * i64::from(samples)
}
