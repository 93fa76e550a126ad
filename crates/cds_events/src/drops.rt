//! Drop lines, which cut parts.
ghost use Rattle.std.specs.Prelude.{◌≡◌, ◌+◌, ◌-◌, ◌*◌, ◌≤◌, ◌++◌, ◌∷◌, [], All, OnOk, IfOk, false};
ghost use Rattle.std.specs.List.{sum_by, list_any};
ghost use Rattle.cds_trace.specs.Signal.{IsTrace};
ghost use Rattle.cds_events.specs.Drops.{drop_sample, drop_samples, crosses, is_cut, cut_by, front, back, cut_all};
ghost use Rattle.cds_events.specs.Segments.{cut_each_by, top_within};
ghost use Rattle.cds_events.specs.Ordered.{IsInside};

use crate::pieces::sample_of_time;
use crate::segments::{Segment, segments_between, top_within};
use cds_base::{Cut, Event, NoMemory, Part, Steps};
use cds_rules::Method;
use cds_trace::Trace;
use std::alloc::Global;
use std::sync::ledger::Ledger;

/// The sample of a drop event.
fn drop_sample(period: u64, event: Event) -> Option<u64>
    requires { 1 ≤ period }
    ensures { result ≡ drop_sample period event }
{
    match event {
        Event::Drop { at } => Some(sample_of_time(period, at)),
        _ => None,
    }
}

/// Puts the samples of the drop events among these behind those so far.
fn add_drops(drops: &mut Vec<u64>, period: u64, events: &[Event]) -> Result<(), NoMemory>
    requires { 1 ≤ period }
    ensures { OnOk result (drops.new.items ≡ drops.old.items ++ drop_samples period events.now) }
{
    for event in events {
        if let Some(at) = drop_sample(period, *event) {
            drops.push(at)?;
        }
    }
    Ok(())
}

/// The samples of the drop events, the method's and then the row's.
pub(crate) fn drop_lines(
    alloc: Global,
    trace: &Trace,
    method: &Method,
    manual: &[Event],
) -> Result<Vec<u64>, NoMemory>
    ensures value { IfOk result (λ v. v.items ≡ drop_samples trace.now.period (method.now.events ++ manual.now)) }
    ensures trace { IsTrace trace.now }
{
    let period = trace.period();
    let mut drops = Vec::new(alloc);
    add_drops(&mut drops, period, method.events.as_slice())?;
    add_drops(&mut drops, period, manual)?;
    Ok(drops)
}

/// Whether a drop line has this part on both of its sides.
fn crosses(at: u64, part: Part) -> bool
    ensures { result ≡ crosses at part }
{
    u64::from(part.start) < at && at < u64::from(part.end)
}

/// Whether one of the drop lines has this part on both of its sides.
fn is_crossed(part: Part, drops: &[u64]) -> bool
    ensures { result ≡ list_any (λ at. crosses at part) drops.now }
{
    drops.iter().any(|at| crosses(*at, part))
}

/// Whether a drop line cuts a part.
fn is_cut(at: u64, part: Part) -> bool
    ensures { result ≡ is_cut at part }
{
    crosses(at, part) && u64::from(part.apex) != at
}

/// The piece of a part before a drop line.
fn front(segments: &[Segment], at: u32, part: Part) -> Part
    ensures { result ≡ front (top_within segments.now) at part }
{
    let apex = if part.apex < at {
        part.apex
    } else {
        top_within(segments, part.start, at)
    };
    Part {
        start: part.start,
        apex,
        end: at,
        left: part.left,
    }
}

/// The piece of a part behind a drop line.
fn back(segments: &[Segment], at: u32, part: Part) -> Part
    ensures { result ≡ back (top_within segments.now) at part }
{
    let apex = if part.apex < at {
        top_within(segments, at, part.end)
    } else {
        part.apex
    };
    Part {
        start: at,
        apex,
        end: part.end,
        left: Cut::Drop,
    }
}

/// Puts what a drop line leaves of a part behind these pieces.
fn add_cut(
    pieces: &mut Vec<Part>,
    segments: &[Segment],
    at: u64,
    part: Part,
) -> Result<(), NoMemory>
    ensures { OnOk result (pieces.new.items ≡ pieces.old.items ++ cut_by (top_within segments.now) at part) }
{
    if !is_cut(at, part) {
        pieces.push(part)?;
        return Ok(());
    }
    pieces.push(front(segments, at as u32, part))?;
    pieces.push(back(segments, at as u32, part))?;
    Ok(())
}

/// What a drop line leaves of these parts.
fn cut_each(
    alloc: Global,
    segments: &[Segment],
    parts: &[Part],
    at: u64,
) -> Result<Vec<Part>, NoMemory>
    ensures { IfOk result (λ v. v.items ≡ cut_each_by segments.now parts.now at) }
{
    let mut pieces = Vec::new(alloc);
    for part in parts {
        add_cut(&mut pieces, segments, at, *part)?;
    }
    Ok(pieces)
}

/// What the drop lines leave of one part, one line after the other. At most two steps for each of its samples but one,
/// however many lines there are.
fn cut_part<L: Ledger>(
    alloc: Global,
    part: Part,
    drops: &[u64],
    trace: &Trace,
    steps: &mut Steps<L>,
) -> Result<Vec<Part>, NoMemory>
    requires { IsInside trace.now part }
    ensures value { IfOk result (λ v. v.items ≡ cut_all trace.now (part ∷ []) drops.now) }
    ensures least { steps.old ≤ steps.new }
    ensures most { steps.new + 2 * part.start ≤ steps.old + 2 * part.end }
{
    let mut pieces = Vec::from_slice(alloc, &[part])?;
    let segments = segments_between(alloc, drops, part.start, part.end, trace, steps)?;
    for at in drops {
        pieces = cut_each(alloc, &segments, &pieces, *at)?;
    }
    Ok(pieces)
}

/// Puts what the drop lines leave of one part behind these pieces. No step where none has the part on both of its
/// sides, and else at most two for each of its samples but one.
fn add_pieces<L: Ledger>(
    alloc: Global,
    pieces: &mut Vec<Part>,
    part: Part,
    drops: &[u64],
    trace: &Trace,
    steps: &mut Steps<L>,
) -> Result<(), NoMemory>
    requires { IsInside trace.now part }
    ensures value { OnOk result (pieces.new.items ≡ pieces.old.items ++ cut_all trace.now (part ∷ []) drops.now) }
    ensures untouched { list_any (λ at. crosses at part) drops.now ≡ false → steps.new ≡ steps.old }
    ensures least { steps.old ≤ steps.new }
    ensures most { steps.new + 2 * part.start ≤ steps.old + 2 * part.end }
{
    if !is_crossed(part, drops) {
        pieces.push(part)?;
        return Ok(());
    }
    let cut = cut_part(alloc, part, drops, trace, steps)?;
    pieces.extend_from_slice(&cut)?;
    Ok(())
}

/// What the drop lines leave of these parts, one line after the other. At most two steps for each sample of a part but
/// one.
pub(crate) fn cut_parts<L: Ledger>(
    alloc: Global,
    parts: &[Part],
    drops: &[u64],
    trace: &Trace,
    steps: &mut Steps<L>,
) -> Result<Vec<Part>, NoMemory>
    requires { All (IsInside trace.now) parts.now }
    ensures value { IfOk result (λ v. v.items ≡ cut_all trace.now parts.now drops.now) }
    ensures least { steps.old ≤ steps.new }
    ensures most { steps.new ≤ steps.old + sum_by (λ part. 2 * (part.end - part.start)) parts.now }
{
    let mut pieces = Vec::with_capacity(alloc, parts.len())?;
    for part in parts {
        add_pieces(alloc, &mut pieces, *part, drops, trace, steps)?;
    }
    Ok(pieces)
}
