//! The raw peaks of a trace arranged to clusters.
ghost use Rattle.std.specs.Prelude.{◌≡◌, ◌+◌, ◌*◌, ◌<◌, ◌≤◌, IfOk, length, map};
ghost use Rattle.cds_rules.specs.Fields.{fields_of, row_events};
ghost use Rattle.cds_events.specs.Runs.{fused, runs_of};
ghost use Rattle.cds_events.specs.Drops.{drop_count};
ghost use Rattle.cds_events.specs.Arrangement.{cluster_of, clusters_under, start_of, end_of};
ghost use Rattle.cds_trace.specs.Standing.{RawFrom};
ghost use Rattle.cds_events.specs.Standing.{ClustersFrom, part_count};
ghost use Rattle.cds_events.specs.Ordered.{AreOrdered, RunsFrom};

use crate::clusters::Clusters;
use crate::drops::{cut_parts, drop_lines};
use crate::pieces::{Piece, forced_pieces};
use crate::placed::{Placed, placed_peaks};
use crate::runs::run_length;
use crate::valleys::parts_of_run;
use cds_base::{Cluster, Event, NoMemory, Parts, RawPeak, Steps};
use cds_rules::Method;
use cds_trace::Trace;
use std::alloc::Global;
use std::sync::ledger::Ledger;

/// The raw peaks of a trace arranged to clusters, under a method and the manual events of a row, which stand behind the
/// method's events. Samples count from the start of the trace; the sample of a time is the last one not behind it.
///
/// A baseline event forces one straight baseline from the sample of its start to that of its end, or to the trace's
/// last one. It has effect where its end lies behind its start and it shares at most an end with each earlier one that
/// has effect. The raw peaks whose apex lies strictly inside are its cluster, from its start to its end; without any it
/// has none. Of each other raw peak it takes what lies on its side: an end is lowered to its start where the apex
/// doesn't lie behind that, and a start is raised to its end where the apex doesn't lie before that. What then has its
/// apex at an end of its range is left out.
///
/// Of the others, neighbours are fused where the later starts at most `fuse` bunches behind the end of the earlier and
/// no forced piece with effect lies between them. A maximal run of fused peaks is a cluster. The valley of two
/// neighbours in a cluster is the first least sample strictly between their apexes; valleys cut a cluster into its
/// parts, one for each peak. Then each drop event, in the order of the list, cuts the part that has its sample strictly
/// inside and its apex elsewhere. The piece with the apex keeps it, and the other's apex is its first greatest sample.
///
/// The raw peaks must stand one after the other in the trace, the apex of each strictly inside its range and its first
/// greatest sample, as those that the detector finds do. The answer is the clusters in the order of their ranges, which
/// share ends at most, with no more parts in all than raw peaks and drop events. Want of memory is the one other
/// answer. At most 3 steps for each sample of the trace, however many events there are. The rules are this project's
/// own.
pub fn arrange<L: Ledger>(
    alloc: Global,
    raw: &[RawPeak],
    trace: &Trace,
    method: &Method,
    manual: &[Event],
    steps: &mut Steps<L>,
) -> Result<Clusters, NoMemory>
    requires { RawFrom trace.now 0 raw.now }
    ensures value { IfOk result (λ clusters.
        clusters ≡ clusters_under trace.now (fields_of method.now) manual.now raw.now) }
    ensures stand { IfOk result (λ clusters. ClustersFrom trace.now 0 clusters) }
    ensures few { IfOk result (λ clusters.
        part_count clusters ≤ length raw.now + drop_count (row_events (fields_of method.now) manual.now)) }
    ensures least { steps.old ≤ steps.new }
    ensures most { steps.new ≤ steps.old + 3 * length trace.now.samples }
{
    let gap = method.fuse * method.bunch;
    let pieces = forced_pieces(alloc, trace, method, manual)?;
    let drops = drop_lines(alloc, trace, method, manual)?;
    let peaks = placed_peaks(alloc, raw, &pieces)?;
    let clusters = clusters_of_runs(alloc, gap, &pieces, &drops, &peaks, trace, steps)?;
    Ok(Clusters::from_vec(clusters))
}

/// The cluster of a run of fused peaks, cut at its valleys and at the drop lines. At most three steps for each of its
/// samples but one.
fn cluster_of<L: Ledger>(
    alloc: Global,
    run: &[Placed],
    drops: &[u64],
    trace: &Trace,
    steps: &mut Steps<L>,
) -> Result<Cluster, NoMemory>
    requires some { 0 < length run.now }
    requires ordered { AreOrdered trace.now run.now }
    ensures value { IfOk result (λ cluster. cluster ≡ cluster_of trace.now drops.now run.now) }
    ensures least { steps.old ≤ steps.new }
    ensures most { steps.new + 3 * start_of run.now ≤ steps.old + 3 * end_of run.now }
{
    let parts = parts_of_run(alloc, run, trace, steps)?;
    let parts = cut_parts(alloc, &parts, drops, trace, steps)?;
    let first = &run[0];
    let last = &run[run.len() - 1];
    Ok(Cluster {
        start: first.start,
        end: last.end,
        forced: first.forced,
        parts: Parts::from_vec(parts),
    })
}

/// The clusters of the runs of these peaks. At most three steps for each sample of the trace.
fn clusters_of_runs<L: Ledger>(
    alloc: Global,
    gap: u32,
    pieces: &[Piece],
    drops: &[u64],
    peaks: &[Placed],
    trace: &Trace,
    steps: &mut Steps<L>,
) -> Result<Vec<Cluster>, NoMemory>
    requires { RunsFrom trace.now 0 (runs_of (fused gap pieces.now) peaks.now) }
    ensures value { IfOk result (λ v. v.items
        ≡ map (cluster_of trace.now drops.now) (runs_of (fused gap pieces.now) peaks.now)) }
    ensures least { steps.old ≤ steps.new }
    ensures most { steps.new ≤ steps.old + 3 * length trace.now.samples }
{
    let mut clusters = Vec::new(alloc);
    let mut rest = peaks;
    while !rest.is_empty() {
        let count = run_length(gap, pieces, rest);
        let (run, later) = rest.split_at(count);
        clusters.push(cluster_of(alloc, run, drops, trace, steps)?)?;
        rest = later;
    }
    Ok(clusters)
}
