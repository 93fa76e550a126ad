//! The area of a range over a straight line.
ghost use Rattle.std.specs.Prelude.{◌≡◌, ◌+◌, ◌-◌, ◌*◌, ◌^◌, ◌<◌, ◌≤◌, ℕ, pos, ◌+ℤ◌, ◌-ℤ◌, ◌*ℤ◌, ◌≤ℤ◌, length, unsigned_abs};
ghost use Rattle.cds_trace.specs.Signal.{sample_at, sum_between};
ghost use Rattle.cds_trace.specs.declared.trace.TheConstants.{GREATEST_SAMPLE};
ghost use Rattle.cds_trace.specs.Heights.{span, level_by_span};
ghost use Rattle.cds_area.specs.Area.{area_by_double_span, IsRatio};

use cds_base::{Line, Ratio, Steps};
use cds_trace::{Trace, level_by_span, span};
use std::sync::ledger::Ledger;

/// A sum of samples less its last one, and the same sum less its first one, together.
fn both_sides(sum: i64, first: i32, last: i32) -> i64
    requires { unsigned_abs sum < 2 ^ 60 }
    ensures { result ≡ (sum -ℤ last) +ℤ (sum -ℤ first) }
{
    (sum - i64::from(last)) + (sum - i64::from(first))
}

/// The sum of the left sides and the right sides of the trapezoids under the signal from `start` to `end`.
fn sides<L: Ledger>(start: u32, end: u32, trace: &Trace, steps: &mut Steps<L>) -> i64
    requires order { start ≤ end }
    requires within { end < length trace.now.samples }
    ensures value { let sum = sum_between trace.now start (end + 1) in
        result ≡ (sum -ℤ sample_at trace.now end) +ℤ (sum -ℤ sample_at trace.now start) }
    ensures counted { steps.new ≡ steps.old + 4 }
{
    let samples = trace.len();
    prove!(end < samples);
    let sum = trace.sum(start, end + 1, steps);
    both_sides(sum, trace.at(start, steps), trace.at(end, steps))
}

/// The levels of a line at two of its samples, together, times the line's span.
fn levels(line: &Line, start: u32, end: u32) -> i64
    requires left { line.now.from ≤ start }
    requires order { start ≤ end }
    requires right { end ≤ line.now.to }
    requires short { line.now.to < 2 ^ 31 }
    ensures value { result ≡ level_by_span line.now start +ℤ level_by_span line.now end }
{
    level_by_span(line, start) + level_by_span(line, end)
}

/// What `sides` has, each for `span` samples, beyond what `levels` has, each for `samples` samples.
fn excess(sides: i64, span: u32, levels: i64, samples: u32) -> i128
    ensures { result ≡ sides *ℤ pos span -ℤ levels *ℤ pos samples }
{
    wide_product(sides, span) - wide_product(levels, samples)
}

/// The area over the range from `start` to `end`: the sum of the trapezoids of signal minus line, in count samples,
/// as an exact fraction over twice the line's span. The range must lie within the line, and the line, of which
/// `from` is below `to`, within the trace. This project's own rule. At most four steps.
pub fn area<L: Ledger>(
    start: u32,
    end: u32,
    line: &Line,
    trace: &Trace,
    steps: &mut Steps<L>,
) -> Ratio
    requires order { start ≤ end }
    requires left { line.now.from ≤ start }
    requires right { end ≤ line.now.to }
    requires long { line.now.from < line.now.to }
    requires within { line.now.to < length trace.now.samples }

    ensures value { IsRatio result (area_by_double_span trace.now line.now start end) (2 * span line.now) }
    ensures numerator { result.num ≡ area_by_double_span trace.now line.now start end }
    ensures divisor { result.den ≡ 2 * span line.now }
    ensures bounded { (most : ℕ) → GREATEST_SAMPLE ≤ℤ pos most → unsigned_abs line.now.from_y ≤ most
        → unsigned_abs line.now.to_y ≤ most →
        unsigned_abs result.num ≤ 2 * most * (end - start) * result.den }
    ensures counted { steps.new ≡ steps.old + 4 }

    // The areas of two ranges that share an end are together the area of the whole.
    ensures conserved { (m : ℕ) → start ≤ m → m ≤ end →
        area_by_double_span trace.now line.now start m +ℤ area_by_double_span trace.now line.now m end ≡ result.num }
{
    let samples = trace.len();
    prove!(line.to < samples);
    let span = span(*line);
    let sides = sides(start, end, trace, steps);
    Ratio {
        num: excess(sides, span, levels(line, start, end), end - start),
        den: 2 * u64::from(span),
    }
}

/// A sum of counts times a number of samples.
fn wide_product(counts: i64, samples: u32) -> i128
    ensures value { result ≡ counts *ℤ pos samples }
    ensures small { unsigned_abs result ≤ 2 ^ 63 * samples }
{
    i128::from(counts) * i128::from(samples)
}
