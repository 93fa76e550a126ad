//! The segments of a part between drop lines, each read once.
ghost use Rattle.std.specs.Prelude.{◌≡◌, ◌+◌, ◌*◌, ◌<◌, ◌≤◌, ◌⊎◌, All, Contains, IfOk, None, length};
ghost use Rattle.std.specs.List.{fold};
ghost use Rattle.cds_events.specs.Segments.{IsSegment, Covers, IsOutside, IsMark, higher, is_within, best_with};
ghost use Rattle.cds_events.specs.Segments.{top_within};

use cds_base::{NoMemory, Steps};
use cds_trace::{Trace, first_greatest};
use std::alloc::Global;
use std::sync::ledger::Ledger;

/// A segment of the trace, from the sample `from` to the sample `to`, with its first greatest sample and the level
/// there.
#[derive(Clone, Copy, Debug)]
pub(crate) struct Segment {
    pub from: u32,
    pub to: u32,
    pub top: u32,
    pub level: i32,
}

/// Reads a segment. One step for each sample, its ends among them.
fn segment_between<L: Ledger>(trace: &Trace, from: u32, to: u32, steps: &mut Steps<L>) -> Segment
    requires order { from < to }
    requires end { to < length trace.now.samples }
    ensures value { IsSegment trace.now result }
    ensures from { result.from ≡ from }
    ensures to { result.to ≡ to }
    ensures counted { steps.new + from ≡ steps.old + to + 1 }
{
    let top = first_greatest(from, to, trace, steps);
    Segment {
        from,
        to,
        top: top.sample,
        level: top.level,
    }
}

/// The first drop line behind `from`, or `end` where none lies before that.
fn next_line(drops: &[u64], from: u32, end: u32) -> u32
    requires { from < end }
    ensures behind { from < result }
    ensures before { result ≤ end }
    ensures line { (result ≡ end) ⊎ Contains drops.now result }
    ensures clear { All (IsOutside from result) drops.now }
{
    let mut to = end;
    for at in drops {
        if u64::from(from) < *at && *at < u64::from(to) {
            to = *at as u32;
        }
    }
    to
}

/// The segments from `start` to `end`, cut at the drop lines. At most two steps for each sample but one.
pub(crate) fn segments_between<L: Ledger>(
    alloc: Global,
    drops: &[u64],
    start: u32,
    end: u32,
    trace: &Trace,
    steps: &mut Steps<L>,
) -> Result<Vec<Segment>, NoMemory>
    requires order { start < end }
    requires end { end < length trace.now.samples }
    ensures covers { IfOk result (λ v. Covers trace.now start v.items end) }
    ensures marks { IfOk result (λ v. All (IsMark v.items) drops.now) }
    ensures least { steps.old ≤ steps.new }
    ensures most { steps.new + 2 * start ≤ steps.old + 2 * end }
{
    let mut segments = Vec::new(alloc);
    let mut from = start;
    while from < end {
        let to = next_line(drops, from, end);
        segments.push(segment_between(trace, from, to, steps))?;
        from = to;
    }
    Ok(segments)
}

/// Of two segments the one with the higher top, and the first where they are equally high.
fn higher(best: Option<Segment>, segment: Segment) -> Segment
    ensures { result ≡ higher best segment }
{
    match best {
        Some(best) if best.level >= segment.level => best,
        _ => segment,
    }
}

/// Whether the segment lies within a range.
fn is_within(from: u32, to: u32, segment: Segment) -> bool
    ensures { result ≡ is_within from to segment }
{
    from <= segment.from && segment.to <= to
}

/// The highest segment within a range, the first of equally high ones.
fn best_within(segments: &[Segment], from: u32, to: u32) -> Option<Segment>
    ensures { result ≡ fold (best_with from to) None segments.now }
{
    let mut best = None;
    for segment in segments {
        if is_within(from, to, *segment) {
            best = Some(higher(best, *segment));
        }
    }
    best
}

/// The first greatest sample of a range that begins and ends where segments do.
pub(crate) fn top_within(segments: &[Segment], from: u32, to: u32) -> u32
    ensures { result ≡ top_within segments.now from to }
{
    match best_within(segments, from, to) {
        Some(segment) => segment.top,
        None => from,
    }
}
