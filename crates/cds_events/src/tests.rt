ghost use Rattle.std.specs.Prelude.{◌≡◌, ◌<◌, IsTrue};
ghost use Rattle.cds_trace.specs.Standing.{IsRawPeak, RawFrom};

use super::*;
use cds_base::{Cluster, Cut, Event, RawPeak, Steps};
use cds_rules::Method;
use cds_trace::{Trace, first_greatest};
use std::alloc::Global;
use std::marker::Brand;
use std::sync::ledger::{Blank, Ledger};
use std::test::Fail;

// A line for each row, worked out by hand: what it shows; its samples, one a second; its raw peaks, each as start, apex
// and end; its manual events; its clusters with their parts, each as start, apex, end and left end. Peaks are fused over
// at most two samples.
const ROWS: &str = r#"one peak|0 0 0 10 40 60 40 10 0 0 0|1 5 8||1 to 8: 1 5 8 start.
two fused peaks|0 0 0 10 40 60 40 20 40 60 40 10 0 0 0|1 5 6 7 9 12||1 to 12: 1 5 7 start, 7 9 12 valley.
a valley under the line|50 50 50 60 90 110 60 20 60 110 90 60 50 50 50|1 5 6 7 9 12||1 to 12: 1 5 7 start, 7 9 12 valley.
a valley above half height|0 0 0 10 40 60 50 40 50 60 40 10 0 0 0|1 5 6 7 9 12||1 to 12: 1 5 7 start, 7 9 12 valley.
no raw peak|7 7|||
a peak behind a climb that was abandoned|0 0 10 10 10 10 10 10 20 40 20 10 10 10|6 9 11||6 to 11: 6 9 11 start.
a peak that ends with the trace|0 0 0 20 60 100 80 60 40|1 5 8||1 to 8: 1 5 8 start.
two samples between peaks|0 0 10 60 10 0 0 0 10 60 10 0|1 3 5 7 9 11||1 to 11: 1 3 5 start, 5 9 11 valley.
three samples between peaks|0 0 10 60 10 0 0 0 10 60 10 0|1 3 5 8 9 11||1 to 5: 1 3 5 start. 8 to 11: 8 9 11 start.
a drop behind the apex|0 0 0 10 40 60 40 10 0 0 0|1 5 8|{kind = 'drop', at_ms = 6000}|1 to 8: 1 5 6 start, 6 6 8 drop.
a drop between two samples, and the same again|0 0 0 10 40 60 40 10 0 0 0|1 5 8|{kind = 'drop', at_ms = 6999}, {kind = 'drop', at_ms = 6000}|1 to 8: 1 5 6 start, 6 6 8 drop.
drops on the apex and on both ends|0 0 0 10 40 60 40 10 0 0 0|1 5 8|{kind = 'drop', at_ms = 5000}, {kind = 'drop', at_ms = 1000}, {kind = 'drop', at_ms = 8000}|1 to 8: 1 5 8 start.
a drop before the apex|0 0 10 60 20 30 20 0|1 3 7|{kind = 'drop', at_ms = 2000}|1 to 7: 1 2 2 start, 2 3 7 drop.
a drop on the apex of a piece|0 0 10 60 20 30 20 0|1 3 7|{kind = 'drop', at_ms = 4000}, {kind = 'drop', at_ms = 5000}|1 to 7: 1 3 4 start, 4 5 7 drop.
the same drops in the other order|0 0 10 60 20 30 20 0|1 3 7|{kind = 'drop', at_ms = 5000}, {kind = 'drop', at_ms = 4000}|1 to 7: 1 3 4 start, 4 5 5 drop, 5 5 7 drop.
a forced piece|0 0 0 10 40 60 40 10 0 0 0|1 5 8|{kind = 'baseline', from_ms = 2000, to_ms = 7000}|forced 2 to 7: 2 5 7 start.
a second piece that overlaps the first|0 0 0 10 40 60 40 10 0 0 0|1 5 8|{kind = 'baseline', from_ms = 2000, to_ms = 7000}, {kind = 'baseline', from_ms = 6000, to_ms = 9000}|forced 2 to 7: 2 5 7 start.
a second piece that shares an end|0 0 0 10 40 60 40 10 0 0 0|1 5 8|{kind = 'baseline', from_ms = 2000, to_ms = 7000}, {kind = 'baseline', from_ms = 7000, to_ms = 9000}|forced 2 to 7: 2 5 7 start.
a forced piece that starts on the apex|0 0 0 10 40 60 40 10 0 0 0|1 5 8|{kind = 'baseline', from_ms = 5000, to_ms = 7000}|
a baseline of one sample|0 0 0 10 40 60 40 10 0 0 0|1 5 8|{kind = 'baseline', from_ms = 3000, to_ms = 3999}|1 to 8: 1 5 8 start.
a start that is raised to the end of a second piece|0 0 0 10 40 60 40 20 40 60 40 10 0 0 0|1 5 6 7 9 12|{kind = 'baseline', from_ms = 2000, to_ms = 6000}, {kind = 'baseline', from_ms = 6000, to_ms = 8000}|forced 2 to 6: 2 5 6 start. 8 to 12: 8 9 12 start.
a start that a second piece without effect leaves|0 0 0 10 40 60 40 20 40 60 40 10 0 0 0|1 5 6 7 9 12|{kind = 'baseline', from_ms = 2000, to_ms = 6000}, {kind = 'baseline', from_ms = 5000, to_ms = 8000}|forced 2 to 6: 2 5 6 start. 7 to 12: 7 9 12 start.
a forced piece without a peak parts its neighbours|0 0 0 10 40 60 40 20 40 60 40 10 0 0 0|1 5 6 7 9 12|{kind = 'baseline', from_ms = 6000, to_ms = 7000}|1 to 6: 1 5 6 start. 7 to 12: 7 9 12 start.
a forced piece up to the end of the trace, with a drop|0 0 0 10 40 60 40 20 40 60 40 10 0 0 0|1 5 6 7 9 12|{kind = 'drop', at_ms = 3000}, {kind = 'baseline', from_ms = 0, to_ms = 20000}|forced 0 to 14: 0 3 3 start, 3 5 7 drop, 7 9 14 valley.
"#;

const ONE: &[i32] = &[0, 0, 0, 10, 40, 60, 40, 10, 0, 0, 0];

// What a method states besides its events.
const COMMON: &str = "bunch = 1
slope_on = 5
slope_off = 5
plateau = 3
fuse = 2
min_area = 1
min_height = 1
weight = 'equal'
";

// Whether a raw peak begins at this sample or behind it, and its apex is the first greatest sample, strictly inside.
fn stands<L: Ledger>(trace: &Trace, at: u32, peak: RawPeak, steps: &mut Steps<L>) -> bool
    ensures { IsTrue result → IsRawPeak trace.now at peak }
{
    if at > peak.start
        || peak.start >= peak.apex
        || peak.apex >= peak.end
        || peak.end >= trace.len()
    {
        return false;
    }
    first_greatest(peak.start, peak.end, trace, steps).sample == peak.apex
}

// Whether raw peaks stand one after the other in a trace.
fn stand<L: Ledger>(trace: &Trace, raw: &[RawPeak], steps: &mut Steps<L>) -> bool
    ensures { IsTrue result → RawFrom trace.now 0 raw.now }
{
    let mut at = 0;
    for peak in raw {
        if !stands(trace, at, *peak, steps) {
            return false;
        }
        at = peak.end;
    }
    true
}

// The clusters; None where the raw peaks don't stand in the trace.
fn arranged_by<L: Ledger>(
    alloc: Global,
    blank: Blank,
    samples: &[i32],
    raw: &[RawPeak],
    manual: &[Event],
) -> Result<Option<Clusters>, Fail>
    requires name { blank.name ≡ L.name }
    requires parts { blank.parts ≡ L.parts }
    requires some { 0 < blank.parts }
{
    let mut steps: Steps<L> = Steps::new(blank);
    let trace = Trace::from_samples(alloc, 1_000_000, samples)?;
    let mut method = Method::of_slopes(alloc, 1, 5, 5, 3);
    method.fuse = 2;
    if !stand(&trace, raw, &mut steps) {
        return Ok(None);
    }
    Ok(Some(arrange(alloc, raw, &trace, &method, manual, &mut steps)?))
}

fn arranged(
    alloc: Global,
    samples: &[i32],
    raw: &[RawPeak],
    manual: &[Event],
) -> Result<Option<Clusters>, Fail> {
    arranged_by::<Brand>(alloc, Blank::new(1), samples, raw, manual)
}

// The whole numbers of a text.
fn numbers(alloc: Global, text: &str) -> Result<Vec<i32>, Fail> {
    let mut numbers = Vec::new(alloc);
    for word in text.split_whitespace() {
        numbers.push(word.parse::<i32>()?)?;
    }
    Ok(numbers)
}

// The raw peaks of a text, each as its start, its apex and its end.
fn raw_peaks(alloc: Global, text: &str) -> Result<Vec<RawPeak>, Fail> {
    let numbers = numbers(alloc, text)?;
    let mut raw = Vec::new(alloc);
    for peak in numbers.chunks(3) {
        let [start, apex, end] = peak else {
            return Err(Fail::from("a raw peak has three samples"));
        };
        raw.push(RawPeak {
            start: u32::try_from(*start)?,
            apex: u32::try_from(*apex)?,
            end: u32::try_from(*end)?,
        })?;
    }
    Ok(raw)
}

// A cluster as the rows write it.
fn cluster_text(alloc: Global, cluster: &Cluster) -> Result<String, Fail> {
    let forced = if cluster.forced { "forced " } else { "" };
    let (start, end) = (cluster.start, cluster.end);
    let mut text = format!(in alloc; "{forced}{start} to {end}:")?;
    let mut behind = "";
    for part in cluster.parts.as_slice() {
        let (start, apex, end) = (part.start, part.apex, part.end);
        let left = match part.left {
            Cut::Start => "start",
            Cut::Valley => "valley",
            Cut::Drop => "drop",
        };
        write!(text, "{behind} {start} {apex} {end} {left}")?;
        behind = ",";
    }
    text.push_str(".")?;
    Ok(text)
}

// The clusters as the rows write them.
fn clusters_text(alloc: Global, clusters: &[Cluster]) -> Result<String, Fail> {
    let mut text = String::new(alloc);
    for cluster in clusters {
        if !text.is_empty() {
            text.push_str(" ")?;
        }
        text.push_str(cluster_text(alloc, cluster)?.as_str())?;
    }
    Ok(text)
}

// Whether the clusters of a line are those that it states.
fn is_as_stated(alloc: Global, line: &str) -> Result<bool, Fail> {
    let (_shows, rest) = line.split_once('|').ok_or("a line says what it shows")?;
    let (samples, rest) = rest.split_once('|').ok_or("a line has samples")?;
    let (raw, rest) = rest.split_once('|').ok_or("a line has raw peaks")?;
    let (events, wanted) = rest.split_once('|').ok_or("a line has events")?;
    let samples = numbers(alloc, samples)?;
    let raw = raw_peaks(alloc, raw)?;
    let method = format!(in alloc; "{COMMON}event = [{events}]\n")?;
    let method = Method::read_toml(alloc, method.as_bytes())?;
    let got = arranged(alloc, &samples, &raw, method.events.as_slice())?;
    let got = got.ok_or("the raw peaks don't stand in the trace")?;
    Ok(clusters_text(alloc, got.as_slice())?.as_str() == wanted)
}

#[test]
fn clusters_are_those_worked_out_by_hand(rt: HostRuntime) -> Result<(), Fail> {
    for line in ROWS.lines() {
        assert!(rt; is_as_stated(rt.alloc(), line)?, "at {}", line);
    }
    Ok(())
}

#[test]
fn five_hundred_peaks_apart_are_clusters_of_their_own(rt: HostRuntime) -> Result<(), Fail> {
    let mut samples = Vec::new(rt.alloc());
    let mut raw = Vec::new(rt.alloc());
    for i in 0..500 {
        samples.extend_from_slice(ONE)?;
        raw.push(RawPeak {
            start: 11 * i + 1,
            apex: 11 * i + 5,
            end: 11 * i + 8,
        })?;
    }
    let got = arranged(rt.alloc(), &samples, &raw, &[Event::Drop { at: 6000 }])?;
    let got = got.ok_or("the raw peaks don't stand in the trace")?;
    assert_eq!(rt; got.len(), 500);
    let last = got.as_slice().last().ok_or("there is no cluster")?;
    assert_eq!(rt; (last.start, last.end, last.parts.len()), (5490, 5497, 1));
    Ok(())
}
