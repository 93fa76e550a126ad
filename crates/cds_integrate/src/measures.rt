//! The exact areas and heights of parts, and which parts are rejected.
ghost use Rattle.std.specs.Prelude.{◌≡◌, ◌+◌, ◌-◌, ◌*◌, ◌^◌, ◌<◌, ◌≤◌, ℕ, pos, ◌+ℤ◌, ◌-ℤ◌, ◌*ℤ◌, ◌≤ℤ◌, All, IfOk};
ghost use Rattle.std.specs.Prelude.{int_le, int_lt, ◌||◌, length, unsigned_abs, if◌then◌else◌};
ghost use Rattle.std.specs.Vec.{vec_len};
ghost use Rattle.cds_rules.specs.Fields.{fields_of};
ghost use Rattle.cds_base.specs.declared.peak.TheConstants.{AREA_LIMIT, HEIGHT_LIMIT};
ghost use Rattle.cds_trace.specs.declared.trace.TheConstants.{MOST_SAMPLES};
ghost use Rattle.cds_trace.specs.Heights.{span, height_by_span};
ghost use Rattle.cds_integrate.specs.Measures.{area_end, gross_area, gross_areas, twice_area, twice_areas, riders};
ghost use Rattle.cds_integrate.specs.Measures.{measure, measured, reported_area, is_rejected};
ghost use Rattle.cds_integrate.specs.Standing.{IsShape, Reaches, InRow, IsMeasured};

use crate::shapes::Shape;
use cds_area::{area, height, units};
use cds_base::{NoMemory, Ratio, Steps};
use cds_rules::Method;
use cds_trace::{Trace, span};
use std::alloc::Global;
use std::marker::Model;
use std::sync::ledger::Ledger;

/// A part with its area, times twice the span of its line, and its height, times the span. Seen as a plain record.
#[derive(Clone, Copy, Debug)]
pub(crate) struct Measured {
    pub shape: Shape,
    pub area: i128,
    pub height: i128,
}

impl Model for Measured {
    ghost use Rattle.cds_integrate.specs.Measures.{Measured as Seen};

    ghost Value = { Seen };

    ghost view = { λ m. record { shape = m.shape; area = m.area; height = m.height } };

    ghost inverse = { λ m. record { shape = m.shape; area = m.area; height = m.height } };
}

/// How many samples lie from one end of the line of a part to the other.
fn line_span(shape: Shape) -> u32
    requires { shape.line.from < shape.line.to }
    ensures value { result ≡ span shape.line }
    ensures some { 0 < result }
{
    span(shape.line)
}

/// How far the area of a part goes, before these later ones.
fn area_end(shape: Shape, later: &[Shape]) -> u32
    ensures { result ≡ area_end shape later.now }
{
    let mut end = shape.end;
    if shape.rider {
        return end;
    }
    for next in later {
        if !next.rider {
            return end;
        }
        end = next.reach;
    }
    end
}

/// The area above the part's line as far as it goes, riders included. Four steps.
fn gross_area<L: Ledger>(shape: Shape, later: &[Shape], trace: &Trace, steps: &mut Steps<L>) -> i128
    requires shape { IsShape trace.now shape }
    requires reaches { Reaches shape later.now }
    requires forward { shape.start ≤ area_end shape later.now }
    ensures value { result ≡ gross_area trace.now shape later.now }
    ensures small { unsigned_abs result < 2 ^ 66 }
    ensures counted { steps.new ≡ steps.old + 4 }
{
    let end = area_end(shape, later);
    let samples = trace.len();
    prove!(shape.line.to < samples);
    area(shape.start, end, &shape.line, trace, steps).num
}

/// The gross areas of parts in a row. Four steps for each.
fn gross_areas<L: Ledger>(
    alloc: Global,
    shapes: &[Shape],
    trace: &Trace,
    steps: &mut Steps<L>,
) -> Result<Vec<i128>, NoMemory>
    requires { (start : ℕ) × (end : ℕ) × InRow trace.now start shapes.now end }
    ensures value { IfOk result (λ v. v.items ≡ gross_areas trace.now shapes.now) }
    ensures small { IfOk result (λ v. All (λ a. unsigned_abs a < 2 ^ 66) v.items) }
    ensures len { IfOk result (λ v. vec_len v ≡ length shapes.now) }
    ensures least { steps.old ≤ steps.new }
    ensures most { steps.new ≤ steps.old + 4 * length shapes.now }
{
    let mut areas = Vec::with_capacity(alloc, shapes.len())?;
    for k in 0..shapes.len() {
        areas.push(gross_area(shapes[k], &shapes[k + 1..], trace, steps))?;
    }
    Ok(areas)
}

/// Twice the area of a rider, from its area times twice its line's span.
fn twice_area(rider: Shape, gross: i128, trace: &Trace) -> i128
    requires shape { IsShape trace.now rider }
    requires whole { gross ≡ twice_area trace.now rider *ℤ pos (span rider.line) }
    requires over { pos 0 ≤ℤ twice_area trace.now rider }
    requires small { unsigned_abs gross < 2 ^ 66 }
    ensures value { result ≡ twice_area trace.now rider }
    ensures least { pos 0 ≤ℤ result }
    ensures small { unsigned_abs result < 2 ^ 66 }
{
    (gross.unsigned_abs() / u128::from(line_span(rider))) as i128
}

/// A sum of areas with one more.
fn added(sum: i128, more: i128) -> i128
    requires sum { unsigned_abs sum ≤ 2 ^ 98 }
    requires more { unsigned_abs more < 2 ^ 66 }
    ensures { result ≡ sum +ℤ more }
{
    sum + more
}

/// Whether a part is a rider.
fn rides(shape: Shape) -> bool
    ensures { result ≡ shape.rider }
{
    shape.rider
}

/// Twice the areas of the riders directly ahead, from the gross areas of the parts there.
fn taken(later: &[Shape], gross: &[i128], trace: &Trace) -> i128
    requires row { (start : ℕ) × (end : ℕ) × InRow trace.now start later.now end }
    requires gross { gross.now ≡ gross_areas trace.now later.now }
    requires small { All (λ a. unsigned_abs a < 2 ^ 66) gross.now }
    requires few { length later.now < 2 ^ 32 }
    ensures value { result ≡ twice_areas trace.now (riders later.now) }
    ensures least { pos 0 ≤ℤ result }
    ensures small { unsigned_abs result ≤ 2 ^ 66 * length later.now }
{
    let mut sum = 0;
    for k in 0..later.len() {
        let next = later[k];
        if !rides(next) {
            return sum;
        }
        sum = added(sum, twice_area(next, gross[k], trace));
    }
    sum
}

/// Twice the areas of the riders of a part, from the gross areas of the parts behind it. A rider has none.
fn taken_from(shape: Shape, later: &[Shape], gross: &[i128], trace: &Trace) -> i128
    requires row { (start : ℕ) × (end : ℕ) × InRow trace.now start later.now end }
    requires gross { gross.now ≡ gross_areas trace.now later.now }
    requires small { All (λ a. unsigned_abs a < 2 ^ 66) gross.now }
    requires few { length later.now < 2 ^ 32 }
    ensures value { result ≡ (if shape.rider then pos 0 else twice_areas trace.now (riders later.now)) }
    ensures least { pos 0 ≤ℤ result }
    ensures small { unsigned_abs result ≤ 2 ^ 66 * length later.now }
{
    if shape.rider {
        return 0;
    }
    taken(later, gross, trace)
}

/// A gross area without what is taken out of it, which stands over 1 and not over the span of the line.
fn without(gross: i128, taken: i128, span: u32) -> i128
    requires gross { unsigned_abs gross < 2 ^ 66 }
    requires taken { unsigned_abs taken ≤ 2 ^ 98 }
    requires span { span ≤ MOST_SAMPLES }
    ensures { result ≡ gross -ℤ taken *ℤ pos span }
{
    gross - taken * i128::from(span)
}

/// A part with its area and its height, from its gross area and those of the parts behind it. One step.
fn measure<L: Ledger>(
    shape: Shape,
    later: &[Shape],
    gross: i128,
    later_gross: &[i128],
    trace: &Trace,
    steps: &mut Steps<L>,
) -> Measured
    requires shape { IsShape trace.now shape }
    requires reaches { Reaches shape later.now }
    requires row { (end : ℕ) × InRow trace.now shape.reach later.now end }
    requires gross { gross ≡ gross_area trace.now shape later.now }
    requires later_gross { later_gross.now ≡ gross_areas trace.now later.now }
    requires gross_small { unsigned_abs gross < 2 ^ 66 }
    requires later_small { All (λ a. unsigned_abs a < 2 ^ 66) later_gross.now }
    requires few { length later.now < 2 ^ 32 }
    ensures value { result ≡ measure trace.now shape later.now }
    ensures measured { IsMeasured trace.now result }
    ensures counted { steps.new ≡ steps.old + 1 }
{
    let samples = trace.len();
    prove!(1 < samples);
    let taken = taken_from(shape, later, later_gross, trace);
    Measured {
        shape,
        area: without(gross, taken, line_span(shape)),
        height: apex_height(shape, trace, steps),
    }
}

/// The height of a part at its apex, times the span of its line. One step.
fn apex_height<L: Ledger>(shape: Shape, trace: &Trace, steps: &mut Steps<L>) -> i128
    requires { IsShape trace.now shape }
    ensures value { result ≡ height_by_span trace.now shape.line shape.apex }
    ensures small { unsigned_abs result < HEIGHT_LIMIT }
    ensures counted { steps.new ≡ steps.old + 1 }
{
    let samples = trace.len();
    prove!(shape.line.to < samples);
    height(shape.apex, &shape.line, trace, steps).num
}

/// Parts in a row with their areas and heights, from their gross areas. One step for each.
fn measure_each<L: Ledger>(
    alloc: Global,
    shapes: &[Shape],
    gross: &[i128],
    trace: &Trace,
    steps: &mut Steps<L>,
) -> Result<Vec<Measured>, NoMemory>
    requires row { (start : ℕ) × (end : ℕ) × InRow trace.now start shapes.now end }
    requires few { length shapes.now < 2 ^ 32 }
    requires gross { gross.now ≡ gross_areas trace.now shapes.now }
    requires whole { length gross.now ≡ length shapes.now }
    requires small { All (λ a. unsigned_abs a < 2 ^ 66) gross.now }
    ensures value { IfOk result (λ v. v.items ≡ measured trace.now shapes.now) }
    ensures measured { IfOk result (λ v. All (IsMeasured trace.now) v.items) }
    ensures least { steps.old ≤ steps.new }
    ensures most { steps.new ≤ steps.old + length shapes.now }
{
    let mut parts = Vec::with_capacity(alloc, shapes.len())?;
    for k in 0..shapes.len() {
        let (later, later_gross) = (&shapes[k + 1..], &gross[k + 1..]);
        parts.push(measure(shapes[k], later, gross[k], later_gross, trace, steps))?;
    }
    Ok(parts)
}

/// Parts in a row with their areas and heights. Five steps for each.
pub(crate) fn measure_all<L: Ledger>(
    alloc: Global,
    shapes: &[Shape],
    trace: &Trace,
    steps: &mut Steps<L>,
) -> Result<Vec<Measured>, NoMemory>
    requires row { (start : ℕ) × (end : ℕ) × InRow trace.now start shapes.now end }
    requires few { length shapes.now < 2 ^ 32 }
    ensures value { IfOk result (λ v. v.items ≡ measured trace.now shapes.now) }
    ensures measured { IfOk result (λ v. All (IsMeasured trace.now) v.items) }
    ensures least { steps.old ≤ steps.new }
    ensures most { steps.new ≤ steps.old + 5 * length shapes.now }
{
    let areas = gross_areas(alloc, shapes, trace, steps)?;
    let gross = areas.as_slice();
    let parts = measure_each(alloc, shapes, gross, trace, steps)?;
    Ok(parts)
}

/// The exact area of a part, in count samples.
pub(crate) fn area_ratio(part: Measured) -> Ratio
    requires { part.shape.line.from < part.shape.line.to }
    ensures num { result.num ≡ part.area }
    ensures den { result.den ≡ 2 * span part.shape.line }
{
    Ratio {
        num: part.area,
        den: 2 * u64::from(span(part.shape.line)),
    }
}

/// The exact height of a part, in counts.
pub(crate) fn height_ratio(part: Measured) -> Ratio
    requires { part.shape.line.from < part.shape.line.to }
    ensures num { result.num ≡ part.height }
    ensures den { result.den ≡ span part.shape.line }
{
    Ratio {
        num: part.height,
        den: u64::from(span(part.shape.line)),
    }
}

/// The reported area of a part whose area isn't negative, in count milliseconds.
pub(crate) fn reported_area(part: Measured, trace: &Trace) -> u64
    requires part { IsMeasured trace.now part }
    requires sign { pos 0 ≤ℤ part.area }
    ensures value { result ≡ reported_area trace.now part }
    ensures small { result < AREA_LIMIT }
{
    units(area_ratio(part), trace.period())
}

/// Whether a part's height is below the method's least.
fn is_low(part: Measured, method: &Method) -> bool
    requires { part.shape.line.from < part.shape.line.to }
    ensures { result ≡ int_lt part.height (pos (method.now.min_height * span part.shape.line)) }
{
    part.height < i128::from(u64::from(method.min_height) * u64::from(span(part.shape.line)))
}

/// Whether a part's area or height isn't positive.
fn is_flat(part: Measured) -> bool
    ensures { result ≡ (int_le part.area (pos 0) || int_le part.height (pos 0)) }
{
    part.area <= 0 || part.height <= 0
}

/// Whether a part is rejected: its area or height isn't positive, or its reported area or its exact height is below the
/// method's least.
pub(crate) fn is_rejected(part: Measured, trace: &Trace, method: &Method) -> bool
    requires { IsMeasured trace.now part }
    ensures { result ≡ is_rejected trace.now (fields_of method.now) part }
{
    if is_flat(part) {
        return true;
    }
    reported_area(part, trace) < method.min_area || is_low(part, method)
}
