//! The peaks of a row: what it says of each part that isn't rejected.
ghost use Rattle.std.specs.Prelude.{◌≡◌, ◌+◌, ◌-◌, ◌*◌, ◌^◌, ◌<◌, ◌≤◌, IfOk, IfSome, All, Option, length, map, pos};
ghost use Rattle.std.specs.Prelude.{◌<ℤ◌, ◌&&◌, not, int_lt, unsigned_abs};
ghost use Rattle.cds_rules.specs.Fields.{fields_of};
ghost use Rattle.cds_base.specs.declared.peak.TheConstants.{HEIGHT_LIMIT};
ghost use Rattle.cds_trace.specs.Heights.{span};
ghost use Rattle.cds_integrate.specs.Peaks.{boundary_height, is_valley_between, IsValleyOf, IsPeak, ArePeaks};
ghost use Rattle.cds_integrate.specs.Peaks.{component_of, time_of};
ghost use Rattle.cds_integrate.specs.Row.{IsSound};
ghost use Rattle.cds_integrate.specs.Standing.{IsMeasured, IsFound, widths};

use crate::found::Found;
use crate::measures::{Measured, area_ratio, height_ratio, is_rejected, reported_area};
use crate::naming::component_of;
use cds_area::height;
use cds_base::{NoMemory, Peak, Ratio, Steps};
use cds_figures::crossings;
use cds_names::Names;
use cds_rules::Method;
use cds_trace::Trace;
use std::alloc::Global;
use std::sync::ledger::Ledger;

/// Half height, in twentieths of the height.
const HALF: u8 = 10;

/// One twentieth of the height.
const TWENTIETH: u8 = 1;

/// Whether a part is a rider.
fn is_rider(part: Measured) -> bool
    ensures { result ≡ part.shape.rider }
{
    let shape = part.shape;
    shape.rider
}

/// Whether neither of two parts is a rider.
fn are_plain(before: Measured, part: Measured) -> bool
    ensures { result ≡ (not before.shape.rider && not part.shape.rider) }
{
    !is_rider(before) && !is_rider(part)
}

/// The height of a part's left end above its line. One step.
fn boundary<L: Ledger>(part: Measured, trace: &Trace, steps: &mut Steps<L>) -> Ratio
    requires { IsMeasured trace.now part }
    ensures num { result.num ≡ boundary_height trace.now part }
    ensures den { result.den ≡ span part.shape.line }
    ensures small { unsigned_abs result.num < HEIGHT_LIMIT }
    ensures counted { steps.new ≡ steps.old + 1 }
{
    let shape = part.shape;
    height(shape.start, &shape.line, trace, steps)
}

/// Whether a height is above the line.
fn is_above(height: i128) -> bool
    ensures { result ≡ int_lt (pos 0) height }
{
    0 < height
}

/// Whether the boundary of two parts, of this height above the line of the second, is a valley of that one.
fn is_valley_between(
    before: Measured,
    part: Measured,
    boundary: i128,
    trace: &Trace,
    method: &Method,
) -> bool
    requires before { IsMeasured trace.now before }
    requires boundary { boundary ≡ boundary_height trace.now part }
    ensures { result ≡ is_valley_between trace.now (fields_of method.now) before part }
{
    let kept = !is_rejected(before, trace, method);
    let above = is_above(boundary);
    are_plain(before, part) && (kept && above)
}

/// The heights of the part before a part and of the boundary of the two, where that is a valley. One step.
fn valley_behind<L: Ledger>(
    before: Measured,
    part: Measured,
    trace: &Trace,
    method: &Method,
    steps: &mut Steps<L>,
) -> Option<(Ratio, Ratio)>
    requires before { IsMeasured trace.now before }
    requires part { IsMeasured trace.now part }
    ensures value { IsValleyOf trace.now (fields_of method.now) (Option.Some before) part result }
    ensures small { IfSome result (λ heights. unsigned_abs heights.0.num < HEIGHT_LIMIT) }
    ensures boundary { IfSome result (λ heights.
        (unsigned_abs heights.1.num < HEIGHT_LIMIT) × (pos 0 <ℤ heights.1.num)) }
    ensures counted { steps.new ≡ steps.old + 1 }
{
    let boundary = boundary(part, trace, steps);
    if is_valley_between(before, part, boundary.num, trace, method) {
        Some((height_ratio(before), boundary))
    } else {
        None
    }
}

/// The same, where a part stands before it.
fn valley_of<L: Ledger>(
    found: Found,
    trace: &Trace,
    method: &Method,
    steps: &mut Steps<L>,
) -> Option<(Ratio, Ratio)>
    requires { IsFound trace.now (fields_of method.now) found }
    ensures value { IsValleyOf trace.now (fields_of method.now) found.before found.part result }
    ensures small { IfSome result (λ heights. unsigned_abs heights.0.num < HEIGHT_LIMIT) }
    ensures boundary { IfSome result (λ heights.
        (unsigned_abs heights.1.num < HEIGHT_LIMIT) × (pos 0 <ℤ heights.1.num)) }
    ensures least { steps.old ≤ steps.new }
    ensures most { steps.new ≤ steps.old + 1 }
{
    let Some(before) = found.before else {
        return None;
    };
    valley_behind(before, found.part, trace, method, steps)
}

/// What a row says of a part that isn't rejected, of its time, and of the component that it is named. At most five
/// steps for each of its samples but one.
fn peak_of<L: Ledger>(
    found: Found,
    time_us: u64,
    component: Option<u32>,
    trace: &Trace,
    method: &Method,
    steps: &mut Steps<L>,
) -> Peak
    requires found { IsFound trace.now (fields_of method.now) found }
    requires time { time_us ≡ time_of trace.now (fields_of method.now) found }
    ensures value { IsPeak trace.now (fields_of method.now) component found result }
    ensures sound { IsSound result }
    ensures least { steps.old ≤ steps.new }
    ensures most { steps.new ≤ steps.old + 5 * (found.part.shape.end - found.part.shape.start) }
{
    let part = found.part;
    let shape = part.shape;
    let samples = trace.len();
    prove!(shape.line.to < samples);
    let half = crossings(
        shape.start,
        shape.apex,
        shape.end,
        &shape.line,
        HALF,
        trace,
        steps,
    );
    let twentieth = crossings(
        shape.start,
        shape.apex,
        shape.end,
        &shape.line,
        TWENTIETH,
        trace,
        steps,
    );
    Peak {
        start: shape.start,
        apex: shape.apex,
        end: shape.end,
        rider: shape.rider,
        line: shape.line,
        time_us,
        area: area_ratio(part),
        units: reported_area(part, trace),
        height: height_ratio(part),
        half,
        twentieth,
        valley: valley_of(found, trace, method, steps),
        component,
    }
}

/// The peaks of a row with these times, named; the first has the number 1. At most five steps for each sample of their
/// ranges but one.
pub(crate) fn peaks_of<L: Ledger>(
    alloc: Global,
    found: &[Found],
    times: &[u64],
    names: &Names,
    trace: &Trace,
    method: &Method,
    steps: &mut Steps<L>,
) -> Result<Vec<Peak>, NoMemory>
    requires found { All (IsFound trace.now (fields_of method.now)) found.now }
    requires few { length found.now < 2 ^ 32 }
    requires times { times.now ≡ map (time_of trace.now (fields_of method.now)) found.now }
    requires names { length names.now ≡ length method.now.components }
    ensures value { IfOk result (λ v. ArePeaks trace.now (fields_of method.now) names.now 1 found.now v.items) }
    ensures sound { IfOk result (λ v. All IsSound v.items) }
    ensures least { steps.old ≤ steps.new }
    ensures most { steps.new ≤ steps.old + 5 * widths found.now }
{
    let count = method.components.len() as u32;
    let mut peaks = Vec::with_capacity(alloc, found.len())?;
    for place in 0..found.len() {
        let component = component_of(names, count, place as u32 + 1);
        peaks.push(peak_of(found[place], times[place], component, trace, method, steps))?;
    }
    Ok(peaks)
}
