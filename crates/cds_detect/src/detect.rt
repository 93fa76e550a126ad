//! The search for raw peaks.
ghost use Rattle.std.specs.Prelude.{◌≡◌, ◌+◌, ◌*◌, ◌<◌, ◌≤◌, ◌++◌, ◌∷◌, ◌^◌, [], length, vec_len, IfOk, OnOk};
ghost use Rattle.std.specs.List.{filter};
ghost use Rattle.cds_trace.specs.Signal.{IsTrace};
ghost use Rattle.cds_trace.specs.Standing.{RawFrom};
ghost use Rattle.cds_detect.specs.Classes.{class_count};
ghost use Rattle.cds_detect.specs.Settings.{settings_of};
ghost use Rattle.cds_rules.specs.Fields.{fields_of};
ghost use Rattle.cds_detect.specs.Windows.{Stands, peaks_with, cost_to, whole_cost};
ghost use Rattle.cds_detect.specs.Raw.{end_sample, peak_between, is_peak, raw_peaks_of, answer_of, peaks_in};

use crate::bunch::class_count;
use crate::raw::{MOST_RAW_PEAKS, Raw, RawPeaks};
use crate::scan::{Window, climb, fall, find_up, first};
use cds_base::{Event, NoMemory, RawPeak, Steps};
use cds_rules::Method;
use cds_trace::{Trace, first_greatest};
use std::alloc::Global;
use std::sync::ledger::Ledger;

/// The raw peaks of a trace under a method and the manual events of a row, which stand behind the method's events.
///
/// The samples are summed in bunches of the method. A bunch is up, down or flat by the difference to the sum two
/// bunches further, under the slope thresholds in force at its time, and inhibited in the window of an inhibit
/// event. A raw peak climbs from a bunch that is up until one is down, and falls until one isn't, or to the
/// trace's last sample where the classes end. The climb is abandoned at an inhibited bunch and behind `plateau`
/// flat ones in a row. What has its first greatest sample at an end of its range is left out, and not counted.
///
/// The answer is the list of the raw peaks in the order of their times, in samples from the start of the trace,
/// or `TooMany` with their number, exactly where there are more than 500. Want of memory is the one other answer.
/// At most 4 steps for each sample of the trace, whatever the answer is. The rules are this project's own.
pub fn raw_peaks<L: Ledger>(
    alloc: Global,
    trace: &Trace,
    method: &Method,
    manual: &[Event],
    steps: &mut Steps<L>,
) -> Result<Raw, NoMemory>
    ensures value { IfOk result (λ raw.
        raw ≡ answer_of (raw_peaks_of trace.now (settings_of (fields_of method.now) manual.now))) }
    ensures stand { IfOk result (λ raw. RawFrom trace.now 0 (peaks_in raw)) }
    ensures few { IfOk result (λ raw. length (peaks_in raw) ≤ MOST_RAW_PEAKS) }
    ensures least { steps.old ≤ steps.new }
    ensures counted { steps.new ≤ steps.old + 4 * length trace.now.samples }
{
    let count = class_count(trace.len(), method.bunch);
    let mut found = Vec::new(alloc);
    let mut window = first(trace, method, manual, steps);
    while window.at < count {
        window = turn(&mut found, trace, method, manual, window, steps)?;
    }
    Ok(answer(found))
}

/// The answer for these raw peaks, in the order of their times.
fn answer(found: Vec<RawPeak>) -> Raw
    requires { vec_len found < 2 ^ 32 }
    ensures { result ≡ answer_of found.items }
{
    if found.len() <= MOST_RAW_PEAKS {
        Raw::List(RawPeaks::from_vec(found))
    } else {
        Raw::TooMany(found.len() as u32)
    }
}

/// Finds the next climb from here on, and puts its peak behind those found if it ends in a fall. The answer is
/// where the search goes on.
fn turn<L: Ledger>(
    found: &mut Vec<RawPeak>,
    trace: &Trace,
    method: &Method,
    manual: &[Event],
    window: Window,
    steps: &mut Steps<L>,
) -> Result<Window, NoMemory>
    requires here { window.at < class_count (length trace.now.samples) method.now.bunch }
    requires stands { Stands trace.now (settings_of (fields_of method.now) manual.now) window }
    ensures on { IfOk result (λ w. window.at < w.at) }
    ensures stands { IfOk result (λ w. Stands trace.now (settings_of (fields_of method.now) manual.now) w) }
    ensures found { let settings = settings_of (fields_of method.now) manual.now in
        IfOk result (λ w. peaks_with trace.now settings found.new.items w.at
        ≡ peaks_with trace.now settings found.old.items window.at) }
    ensures counted { IfOk result (λ w. steps.new + cost_to trace.now method.now.bunch window.at
        ≤ steps.old + cost_to trace.now method.now.bunch w.at) }
    ensures least { steps.old ≤ steps.new }
    ensures bounded { steps.new + cost_to trace.now method.now.bunch window.at
        ≤ steps.old + whole_cost trace.now method.now.bunch }
{
    let start = find_up(trace, method, manual, window, steps);
    if start.at >= class_count(trace.len(), method.bunch) {
        return Ok(start);
    }
    let top = climb(trace, method, manual, start, steps);
    if !top.class.is_down() {
        return Ok(top);
    }
    let end = fall(trace, method, manual, top, steps);
    let to = end_sample(trace, method.bunch, end.at);
    keep(found, trace, start.at * method.bunch, to, steps)?;
    Ok(end)
}

/// The last sample of a peak whose fall ends at this class, or with the classes.
fn end_sample(trace: &Trace, bunch: u32, end: u32) -> u32
    requires bunch { 1 ≤ bunch }
    requires end { end ≤ class_count (length trace.now.samples) bunch }
    ensures { result ≡ end_sample trace.now bunch end }
{
    let samples = trace.len();
    if end == class_count(samples, bunch) {
        samples - 1
    } else {
        end * bunch
    }
}

/// Puts the raw peak of a range behind those found, unless its apex is the first or the last sample. One step for
/// each sample of the range.
fn keep<L: Ledger>(
    found: &mut Vec<RawPeak>,
    trace: &Trace,
    from: u32,
    to: u32,
    steps: &mut Steps<L>,
) -> Result<(), NoMemory>
    requires trace { IsTrace trace.now }
    requires order { from ≤ to }
    requires end { to < length trace.now.samples }
    ensures found { OnOk result
        (found.new.items ≡ found.old.items ++ filter is_peak (peak_between trace.now from to ∷ [])) }
    ensures counted { steps.new + from ≡ steps.old + to + 1 }
{
    let apex = first_greatest(from, to, trace, steps).sample;
    if from < apex && apex < to {
        found.push(RawPeak {
            start: from,
            apex,
            end: to,
        })?;
    }
    Ok(())
}

#[cfg(test)]
mod tests;
