//! The parts of a cluster with the lines below them.
ghost use Rattle.std.specs.Prelude.{◌≡◌, ◌+◌, ◌-◌, ◌*◌, ◌==◌, ◌<◌, ◌≤◌, ◌++◌, ℕ, true, false, All, IfOk, IfSome};
ghost use Rattle.std.specs.Prelude.{IfNone, length, map};
ghost use Rattle.std.specs.List.{list_any};
ghost use Rattle.std.specs.Vec.{vec_len};
ghost use Rattle.cds_baseline.specs.Cluster.{is_valley};
ghost use Rattle.cds_base.specs.Tiles.{Tiles};
ghost use Rattle.cds_baseline.specs.Chord.{is_over};
ghost use Rattle.cds_baseline.specs.Tangent.{tangent_sample};
ghost use Rattle.cds_events.specs.Standing.{IsPart, IsCluster};
ghost use Rattle.cds_integrate.specs.Lines.{first_behind};
ghost use Rattle.cds_integrate.specs.Standing.{IsOver, IsShape, InRow};
ghost use Rattle.cds_integrate.specs.Shapes.{covers, skims, is_covered, is_skimmed, is_rider, rider_shape, plain_shape};
ghost use Rattle.cds_integrate.specs.Shapes.{shape_of, shapes_of};

use crate::lines::{first_behind, last_up_to};
use cds_base::{Cluster, Cut, Event, Line, NoMemory, Part, Steps, is_in_window};
use cds_baseline::{nodes, tangent};
use cds_rules::Method;
use cds_trace::{Trace, chord};
use std::alloc::Global;
use std::marker::Model;
use std::sync::ledger::Ledger;

/// A part with the line below it: its range and apex, where its part of the cluster ends (`reach`), and whether it is
/// skimmed off by a tangent. Seen as a plain record.
#[derive(Clone, Copy, Debug)]
pub(crate) struct Shape {
    pub start: u32,
    pub apex: u32,
    pub end: u32,
    pub reach: u32,
    pub rider: bool,
    pub line: Line,
}

impl Model for Shape {
    ghost use Rattle.cds_integrate.specs.Shapes.{Shape as Seen};

    ghost Value = { Seen };

    ghost view = { λ s. record {
      start = s.start;
      apex = s.apex;
      end = s.end;
      reach = s.reach;
      rider = s.rider;
      line = s.line;
    } };

    ghost inverse = { λ s. record {
      start = s.start;
      apex = s.apex;
      end = s.end;
      reach = s.reach;
      rider = s.rider;
      line = s.line;
    } };
}

/// Whether the event makes a valley at this time a node.
fn covers(time_us: u64, event: Event) -> bool
    ensures { result ≡ covers time_us event }
{
    match event {
        Event::Valley { from, to } => is_in_window(from, to, time_us),
        _ => false,
    }
}

/// Whether the event skims off the part behind a valley at this time.
fn skims(time_us: u64, event: Event) -> bool
    ensures { result ≡ skims time_us event }
{
    match event {
        Event::Skim { from, to } => is_in_window(from, to, time_us),
        _ => false,
    }
}

/// Whether one of these events makes a valley at this time a node.
fn covers_any(time_us: u64, events: &[Event]) -> bool
    ensures { result ≡ list_any (covers time_us) events.now }
{
    events.iter().any(|event| covers(time_us, *event))
}

/// Whether one of these events skims off the part behind a valley at this time.
fn skims_any(time_us: u64, events: &[Event]) -> bool
    ensures { result ≡ list_any (skims time_us) events.now }
{
    events.iter().any(|event| skims(time_us, *event))
}

/// Whether the left end of a part is a valley.
fn is_valley(part: Part) -> bool
    ensures { result ≡ is_valley part.left }
{
    matches!(part.left, Cut::Valley)
}

/// Whether a sample is one of these nodes.
fn is_node(sample: u32, nodes: &[u32]) -> bool
    ensures { result ≡ list_any (λ node. node == sample) nodes.now }
{
    nodes.iter().any(|node| *node == sample)
}

/// The time of a sample of the trace, in microseconds.
fn time_of(trace: &Trace, sample: u32) -> u64
    requires { sample < length trace.now.samples }
    ensures { result ≡ sample * trace.now.period }
{
    let samples = trace.len();
    prove!(sample < samples);
    u64::from(sample) * trace.period()
}

/// Whether the left end of a part is a valley in the window of a valley event.
fn is_covered(part: Part, trace: &Trace, method: &Method, manual: &[Event]) -> bool
    requires { part.start < length trace.now.samples }
    ensures { result ≡ is_covered trace.now (method.now.events ++ manual.now) part }
{
    let time = time_of(trace, part.start);
    is_valley(part) && (covers_any(time, method.events.as_slice()) || covers_any(time, manual))
}

/// Whether the left end of a part is a valley in the window of a skim event, and no node.
fn is_skimmed(part: Part, nodes: &[u32], trace: &Trace, method: &Method, manual: &[Event]) -> bool
    requires { part.start < length trace.now.samples }
    ensures { result ≡ is_skimmed trace.now (method.now.events ++ manual.now) nodes.now part }
{
    let time = time_of(trace, part.start);
    let skimmed = skims_any(time, method.events.as_slice()) || skims_any(time, manual);
    is_valley(part) && (skimmed && !is_node(part.start, nodes))
}

/// The sample at which the tangent of a rider ends; None where the part is none. At most one step for each of its
/// samples.
fn rider_end<L: Ledger>(
    part: Part,
    nodes: &[u32],
    trace: &Trace,
    method: &Method,
    manual: &[Event],
    steps: &mut Steps<L>,
) -> Option<u32>
    requires order { part.start < part.end }
    requires within { part.end < length trace.now.samples }
    ensures rider { IfSome result (λ end. is_rider trace.now (method.now.events ++ manual.now) nodes.now part ≡ true) }
    ensures plain { IfNone result (is_rider trace.now (method.now.events ++ manual.now) nodes.now part ≡ false) }
    ensures end { IfSome result (λ end. end ≡ tangent_sample trace.now part.start part.end) }
    ensures high { IfSome result (λ end. (part.apex < end) × (part.start < end) × (end ≤ part.end)) }
    ensures clear { IfSome result (λ end. (k : ℕ) → part.start ≤ k → k ≤ end → is_over trace.now part.start end k
        ≡ true) }
    ensures least { steps.old ≤ steps.new }
    ensures most { steps.new + part.start ≤ steps.old + part.end + 1 }
{
    if !is_skimmed(part, nodes, trace, method, manual) {
        return None;
    }
    let end = tangent(part.start, part.end, trace, steps);
    if part.apex < end { Some(end) } else { None }
}

/// The shape of a rider whose tangent ends at this sample. Two steps.
fn rider_shape<L: Ledger>(part: Part, end: u32, trace: &Trace, steps: &mut Steps<L>) -> Shape
    requires part { IsPart trace.now part }
    requires order { part.start < part.end }
    requires within { part.end < length trace.now.samples }
    requires end { end ≡ tangent_sample trace.now part.start part.end }
    requires high { (part.apex < end) × (part.start < end) × (end ≤ part.end) }
    requires clear { (k : ℕ) → part.start ≤ k → k ≤ end → is_over trace.now part.start end k ≡ true }
    ensures value { result ≡ rider_shape trace.now part }
    ensures shape { IsShape trace.now result }
    ensures counted { steps.new ≡ steps.old + 2 }
{
    let samples = trace.len();
    prove!(end < samples);
    Shape {
        start: part.start,
        apex: part.apex,
        end,
        reach: part.end,
        rider: true,
        line: chord(part.start, end, trace, steps),
    }
}

/// The shape of any other part, over a baseline with these nodes. Two steps.
fn plain_shape<L: Ledger>(part: Part, nodes: &[u32], trace: &Trace, steps: &mut Steps<L>) -> Shape
    requires part { IsPart trace.now part }
    requires order { part.start < part.end }
    requires clear { part.end ≤ first_behind nodes.now part.start }
    requires within { first_behind nodes.now part.start < length trace.now.samples }
    ensures value { result ≡ plain_shape trace.now nodes.now part }
    ensures shape { IsShape trace.now result }
    ensures counted { steps.new ≡ steps.old + 2 }
{
    let samples = trace.len();
    prove!(part.end < samples);
    let (from, to) = (
        last_up_to(nodes, part.start),
        first_behind(nodes, part.start),
    );
    Shape {
        start: part.start,
        apex: part.apex,
        end: part.end,
        reach: part.end,
        rider: false,
        line: chord(from, to, trace, steps),
    }
}

/// The shape of a part over a baseline with these nodes. At most four steps for each of its samples but one.
fn shape_of<L: Ledger>(
    part: Part,
    nodes: &[u32],
    trace: &Trace,
    method: &Method,
    manual: &[Event],
    steps: &mut Steps<L>,
) -> Shape
    requires part { IsPart trace.now part }
    requires order { part.start < part.end }
    requires clear { part.end ≤ first_behind nodes.now part.start }
    requires within { first_behind nodes.now part.start < length trace.now.samples }
    ensures value { result ≡ shape_of trace.now (method.now.events ++ manual.now) nodes.now part }
    ensures shape { IsShape trace.now result }
    ensures least { steps.old ≤ steps.new }
    ensures most { steps.new + 4 * part.start ≤ steps.old + 4 * part.end }
{
    match rider_end(part, nodes, trace, method, manual, steps) {
        Some(end) => rider_shape(part, end, trace, steps),
        None => plain_shape(part, nodes, trace, steps),
    }
}

/// For each part of a cluster whether its left end is a valley in the window of a valley event.
fn covered_marks(
    alloc: Global,
    parts: &[Part],
    trace: &Trace,
    method: &Method,
    manual: &[Event],
) -> Result<Vec<bool>, NoMemory>
    requires { All (λ part. part.start < length trace.now.samples) parts.now }
    ensures marks { IfOk result (λ v. v.items
        ≡ map (is_covered trace.now (method.now.events ++ manual.now)) parts.now) }
    ensures len { IfOk result (λ v. vec_len v ≡ length parts.now) }
{
    let mut marks = Vec::with_capacity(alloc, parts.len())?;
    for part in parts {
        marks.push(is_covered(*part, trace, method, manual))?;
    }
    Ok(marks)
}

/// Parts in a row over a baseline with these nodes. At most four steps for each of their samples but one.
fn shapes_over<L: Ledger>(
    alloc: Global,
    parts: &[Part],
    nodes: &[u32],
    trace: &Trace,
    method: &Method,
    manual: &[Event],
    steps: &mut Steps<L>,
) -> Result<Vec<Shape>, NoMemory>
    requires { All (IsOver trace.now nodes.now) parts.now }
    ensures value { IfOk result (λ v. v.items
        ≡ map (shape_of trace.now (method.now.events ++ manual.now) nodes.now) parts.now) }
    ensures shapes { IfOk result (λ v. All (IsShape trace.now) v.items) }
    ensures least { steps.old ≤ steps.new }
    ensures most { (start end : ℕ) → Tiles start parts.now end → steps.new + 4 * start ≤ steps.old + 4 * end }
{
    let mut shapes = Vec::with_capacity(alloc, parts.len())?;
    for part in parts {
        shapes.push(shape_of(*part, nodes, trace, method, manual, steps))?;
    }
    Ok(shapes)
}

/// The parts of a cluster with the lines below them, in their order. At most six steps for each of its samples but one.
pub(crate) fn shapes_of<L: Ledger>(
    alloc: Global,
    cluster: &Cluster,
    trace: &Trace,
    method: &Method,
    manual: &[Event],
    steps: &mut Steps<L>,
) -> Result<Vec<Shape>, NoMemory>
    requires { IsCluster trace.now 0 cluster.now }
    ensures value { IfOk result (λ v. v.items ≡ shapes_of trace.now (method.now.events ++ manual.now) cluster.now) }
    ensures row { IfOk result (λ v. InRow trace.now cluster.now.start v.items cluster.now.end) }
    ensures least { steps.old ≤ steps.new }
    ensures most { steps.new + 6 * cluster.now.start ≤ steps.old + 6 * cluster.now.end }
{
    let parts = cluster.parts.as_slice();
    let covered = covered_marks(alloc, parts, trace, method, manual)?;
    let baseline = nodes(alloc, cluster, &covered, trace, steps)?;
    let bends = baseline.as_slice();
    let shapes = shapes_over(alloc, parts, bends, trace, method, manual, steps)?;
    Ok(shapes)
}
