//! The row of a trace.
ghost use Rattle.std.specs.Prelude.{◌≡◌, ◌+◌, ◌-◌, ◌*◌, ◌++◌, ◌<◌, ◌≤◌, All, IfOk, OnOk, length};
ghost use Rattle.std.specs.List.{flat_map};
ghost use Rattle.cds_rules.specs.Fields.{fields_of, row_events};
ghost use Rattle.cds_detect.specs.Raw.{raw_peaks_of};
ghost use Rattle.cds_detect.specs.Settings.{settings_of};
ghost use Rattle.cds_trace.specs.Standing.{RawFrom};
ghost use Rattle.cds_events.specs.Standing.{IsCluster, ClustersFrom};
ghost use Rattle.cds_integrate.specs.Row.{found_in, found_of, peaks_in, most_peaks, AreNamed, AreComponents};
ghost use Rattle.cds_integrate.specs.Row.{IsSound};
ghost use Rattle.cds_integrate.specs.Row.{StandsIn, IsRow};
ghost use Rattle.cds_integrate.specs.Seen.{seen, row_seen};
ghost use Rattle.cds_integrate.specs.Standing.{IsFound, widths};
ghost use Rattle.cds_integrate.specs.Sums.{Conserves, Sums};

use crate::found::{Found, add_accepted};
use crate::measures::measure_all;
use crate::naming::{times_of, windows_of};
use crate::peaks::peaks_of;
use crate::row_part::RowPart;
use crate::shapes::shapes_of;
use cds_base::{Cluster, Event, NoMemory, Peak, RawPeak, Steps};
use cds_detect::{Raw, raw_peaks};
use cds_events::arrange;
use cds_names::name_peaks;
use cds_rules::Method;
use cds_trace::Trace;
use std::alloc::Global;
use std::sync::ledger::Ledger;

/// The row of a trace under a method and the manual events of a row, which stand behind the method's events.
///
/// The raw peaks are arranged to clusters. The baseline of a cluster is straight between its nodes. The part behind a
/// valley in the window of a skim event, where the valley is no node, is skimmed off by the tangent from the valley
/// where that ends behind the part's apex: it is a rider, and its area is taken out of the nearest earlier part that is
/// none. A part whose exact area or height isn't positive, whose reported area is below `min_area` or whose height is
/// below `min_height` is rejected. The others are the row's peaks, numbered from 1 in the order of their ranges, each
/// with its time under the method's rules, its exact area and height, its crossings at half height and at one twentieth
/// of it, and the heights for its peak to valley ratio. Components are numbered from 1; they name the peaks, over the
/// peaks' times, by the one naming that no wanted pair blocks.
///
/// Areas are in count samples and heights in counts, both exact. Times and crossings are in microseconds from the start
/// of the trace, reported areas in count milliseconds, all rounded down. The area of a part with riders goes on over
/// its line to the end of the last rider's part, without the areas of its riders. Crossings are None where the signal
/// stays above their level up to an end of the peak's range. The heights of the valley are None where no part of the
/// cluster lies before the peak, where that part is rejected, where one of the two is a rider, and where the boundary
/// of the two doesn't lie above the line.
///
/// Over each baseline line between two neighbouring nodes the exact areas of all parts whose ranges lie there, riders
/// and rejected ones included, are together the area over the whole line. So where none of them is rejected, the areas
/// of the peaks there are together the same.
///
/// A row has fewer peaks than its trace has samples, and at most 500 and one for each drop event. `TooMany` comes
/// exactly where there are more than 500 raw peaks. Want of memory is the one other answer. At least one step, since
/// sample 0 is read first, and besides at most 26 for each sample of the trace, so at most 32. The rules are this
/// project's own.
#[tactic(auto, using(crate::proofs::PeakSums::sums))]
pub fn row<L: Ledger>(
    alloc: Global,
    trace: &Trace,
    method: &Method,
    manual: &[Event],
    steps: &mut Steps<L>,
) -> Result<RowPart, NoMemory>
    ensures value { IfOk result (IsRow trace.now (fields_of method.now) manual.now) }
    ensures plain { IfOk result (λ row. seen row ≡ row_seen trace.now (fields_of method.now) manual.now) }
    ensures stand { IfOk result (λ row. All (StandsIn trace.now) (peaks_in row)) }
    ensures components { IfOk result (λ row. AreComponents (fields_of method.now) (peaks_in row)) }
    ensures fewer { IfOk result (λ row. length (peaks_in row) < length trace.now.samples) }
    ensures few { IfOk result (λ row. length (peaks_in row) ≤ most_peaks (fields_of method.now) manual.now) }
    ensures conserved { Conserves trace.now (fields_of method.now) manual.now }
    ensures sums { IfOk result (Sums trace.now (fields_of method.now) manual.now) }
    ensures least { steps.old + 1 ≤ steps.new }
    ensures own { steps.new ≤ steps.old + 26 * length trace.now.samples + 1 }
    ensures most { steps.new ≤ steps.old + 32 * length trace.now.samples }
{
    let samples = trace.len();
    prove!(1 < samples);
    let _first = trace.at(0, steps);
    let list = match raw_peaks(alloc, trace, method, manual, steps)? {
        Raw::TooMany(number) => return Ok(RowPart::of_too_many(number)),
        Raw::List(list) => list,
    };
    let raw = list.as_slice();
    let peaks = peaks_from(alloc, raw, trace, method, manual, steps)?;
    Ok(RowPart::of_peaks(peaks))
}

/// Puts the parts of a cluster that aren't rejected behind those found so far. At most eleven steps for each sample of
/// the cluster but one.
fn add_found<L: Ledger>(
    alloc: Global,
    found: &mut Vec<Found>,
    cluster: &Cluster,
    trace: &Trace,
    method: &Method,
    manual: &[Event],
    steps: &mut Steps<L>,
) -> Result<(), NoMemory>
    requires cluster { IsCluster trace.now 0 cluster.now }
    requires before { All (IsFound trace.now (fields_of method.now)) found.old.items }
    ensures value { OnOk result (found.new.items
        ≡ found.old.items ++ found_in trace.now (fields_of method.now) (row_events
        (fields_of method.now) manual.now) cluster.now) }
    ensures kept { All (IsFound trace.now (fields_of method.now)) found.new.items }
    ensures wide { OnOk result (widths found.new.items + cluster.now.start ≤ widths found.old.items + cluster.now.end) }
    ensures least { steps.old ≤ steps.new }
    ensures most { steps.new + 11 * cluster.now.start ≤ steps.old + 11 * cluster.now.end }
{
    let samples = trace.len();
    prove!(cluster.end < samples);
    let row = shapes_of(alloc, cluster, trace, method, manual, steps)?;
    let shapes = row.as_slice();
    let measured = measure_all(alloc, shapes, trace, steps)?;
    let parts = measured.as_slice();
    add_accepted(found, parts, trace, method)?;
    Ok(())
}

/// The parts of clusters that aren't rejected.
fn found_of<L: Ledger>(
    alloc: Global,
    clusters: &[Cluster],
    trace: &Trace,
    method: &Method,
    manual: &[Event],
    steps: &mut Steps<L>,
) -> Result<Vec<Found>, NoMemory>
    requires { ClustersFrom trace.now 0 clusters.now }
    ensures value { IfOk result (λ v. v.items
        ≡ flat_map (found_in trace.now (fields_of method.now) (row_events
        (fields_of method.now) manual.now)) clusters.now) }
    ensures kept { IfOk result (λ v. All (IsFound trace.now (fields_of method.now)) v.items) }
    ensures wide { IfOk result (λ v. widths v.items + 1 ≤ length trace.now.samples) }
    ensures least { steps.old ≤ steps.new }
    ensures most { steps.new + 11 ≤ steps.old + 11 * length trace.now.samples }
{
    let samples = trace.len();
    prove!(1 < samples);
    let mut found = Vec::new(alloc);
    for cluster in clusters {
        add_found(alloc, &mut found, cluster, trace, method, manual, steps)?;
    }
    Ok(found)
}

/// The peaks of the row of these raw peaks, which are those of the trace. At most 22 steps for each sample of the
/// trace.
fn peaks_from<L: Ledger>(
    alloc: Global,
    raw: &[RawPeak],
    trace: &Trace,
    method: &Method,
    manual: &[Event],
    steps: &mut Steps<L>,
) -> Result<Vec<Peak>, NoMemory>
    requires stand { RawFrom trace.now 0 raw.now }
    requires raw { raw.now ≡ raw_peaks_of trace.now (settings_of (fields_of method.now) manual.now) }
    ensures value { IfOk result
        (λ v. AreNamed trace.now (fields_of method.now) (found_of trace.now
        (fields_of method.now) manual.now) v.items) }
    ensures sound { IfOk result (λ v. All IsSound v.items) }
    ensures few { IfOk result (λ v. length v.items < length trace.now.samples) }
    ensures least { steps.old ≤ steps.new }
    ensures most { steps.new ≤ steps.old + 22 * length trace.now.samples }
{
    let arranged = arrange(alloc, raw, trace, method, manual, steps)?;
    let clusters = arranged.as_slice();
    let parts = found_of(alloc, clusters, trace, method, manual, steps)?;
    let found = parts.as_slice();
    let samples = trace.len();
    prove!(1 < samples);
    let sought = windows_of(alloc, method)?;
    let windows = sought.as_slice();
    let taken = times_of(alloc, found, trace, method, steps)?;
    let times = taken.as_slice();
    let names = name_peaks(alloc, windows, times)?;
    let peaks = peaks_of(alloc, found, times, &names, trace, method, steps)?;
    Ok(peaks)
}
