//! The parts of a run of fused peaks, cut at the valleys.
ghost use Rattle.std.specs.Prelude.{◌≡◌, ◌+◌, ◌<◌, ◌≤◌, IfOk, length};
ghost use Rattle.cds_base.specs.declared.cluster.Cut.TheVariants.{Start};
ghost use Rattle.cds_trace.specs.Extremes.{first_least};
ghost use Rattle.cds_events.specs.Parts.{part_end, parts_from};
ghost use Rattle.cds_events.specs.Arrangement.{start_of, end_of};
ghost use Rattle.cds_events.specs.Ordered.{IsAhead, AreOrdered, next_apex};

use crate::placed::Placed;
use cds_base::{Cut, NoMemory, Part, Steps};
use cds_trace::Trace;
use std::alloc::Global;
use std::sync::ledger::Ledger;

/// The first least sample of the range from `from` to `to`, its ends in it. One step for each sample.
fn first_least<L: Ledger>(trace: &Trace, from: u32, to: u32, steps: &mut Steps<L>) -> u32
    requires order { from ≤ to }
    requires end { to < length trace.now.samples }
    ensures value { result ≡ first_least trace.now from to }
    ensures low { from ≤ result }
    ensures high { result ≤ to }
    ensures counted { steps.new + from ≡ steps.old + to + 1 }
{
    let samples = trace.len();
    prove!(to < samples);
    let mut valley = from;
    let mut depth = trace.at(from, steps);
    for i in from + 1..to + 1 {
        let sample = trace.at(i, steps);
        if sample < depth {
            valley = i;
            depth = sample;
        }
    }
    valley
}

/// Where the part of a peak ends: at the valley before the next peak of its run, or where the peak itself ends. One
/// step for each sample strictly between the two apexes.
fn part_end<L: Ledger>(trace: &Trace, peak: Placed, later: &[Placed], steps: &mut Steps<L>) -> u32
    requires falls { peak.apex < peak.end }
    requires ahead { IsAhead peak later.now }
    requires ordered { AreOrdered trace.now later.now }
    ensures value { result ≡ part_end trace.now peak later.now }
    ensures least { steps.old ≤ steps.new }
    ensures most { steps.new + peak.apex ≤ steps.old + next_apex peak.apex later.now }
{
    let [next, ..] = later else {
        return peak.end;
    };
    first_least(trace, peak.apex + 1, next.apex - 1, steps)
}

/// The parts of a run of fused peaks, which meet at the valleys. Fewer steps than the run has samples.
pub(crate) fn parts_of_run<L: Ledger>(
    alloc: Global,
    run: &[Placed],
    trace: &Trace,
    steps: &mut Steps<L>,
) -> Result<Vec<Part>, NoMemory>
    requires some { 0 < length run.now }
    requires ordered { AreOrdered trace.now run.now }
    ensures value { IfOk result (λ v. v.items ≡ parts_from trace.now (start_of run.now) Start run.now) }
    ensures least { steps.old ≤ steps.new }
    ensures most { steps.new + start_of run.now ≤ steps.old + end_of run.now }
{
    let mut parts = Vec::with_capacity(alloc, run.len())?;
    let first = &run[0];
    let mut start = first.start;
    let mut left = Cut::Start;
    let mut rest = run;
    while let [peak, later @ ..] = rest {
        let end = part_end(trace, *peak, later, steps);
        parts.push(Part {
            start,
            apex: peak.apex,
            end,
            left,
        })?;
        start = end;
        left = Cut::Valley;
        rest = later;
    }
    Ok(parts)
}
