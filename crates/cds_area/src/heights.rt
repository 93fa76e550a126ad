//! The height of the signal over a straight line at one sample.
ghost use Rattle.std.specs.Prelude.{◌≡◌, ◌+◌, ◌<◌, ◌≤◌, length, unsigned_abs};
ghost use Rattle.cds_base.specs.declared.peak.TheConstants.{HEIGHT_LIMIT};
ghost use Rattle.cds_trace.specs.Heights.{span, height_by_span};
ghost use Rattle.cds_area.specs.Area.{IsRatio};

use cds_base::{Line, Ratio, Steps};
use cds_trace::{Trace, height_by_span, span};
use std::sync::ledger::Ledger;

/// The height at the sample `i`: the signal minus the line there, in counts, as an exact fraction over the line's
/// span. The sample must lie within the line, and the line, of which `from` is below `to`, within the trace. This
/// project's own rule. One step.
pub fn height<L: Ledger>(i: u32, line: &Line, trace: &Trace, steps: &mut Steps<L>) -> Ratio
    requires left { line.now.from ≤ i }
    requires right { i ≤ line.now.to }
    requires long { line.now.from < line.now.to }
    requires within { line.now.to < length trace.now.samples }

    ensures value { IsRatio result (height_by_span trace.now line.now i) (span line.now) }
    ensures numerator { result.num ≡ height_by_span trace.now line.now i }
    ensures divisor { result.den ≡ span line.now }
    ensures small { unsigned_abs result.num < HEIGHT_LIMIT }
    ensures counted { steps.new ≡ steps.old + 1 }
{
    Ratio {
        num: i128::from(height_by_span(i, line, trace, steps)),
        den: u64::from(span(*line)),
    }
}
