//! Figures, crossings, noise and times that are worked by hand.
ghost use Rattle.std.specs.Prelude.{◌≡◌, ◌<◌};

use super::*;
use cds_base::{Line, Ratio, Steps, Text};
use cds_frac::Frac;
use cds_trace::{Trace, height_by_span};
use std::marker::Brand;
use std::sync::ledger::{Blank, Ledger};
use std::test::Fail;

const ONE: &[i32] = &[0, 0, 0, 10, 40, 60, 40, 10, 0, 0, 0];

const TWO: &[i32] = &[0, 0, 0, 10, 40, 60, 40, 20, 40, 60, 40, 10, 0, 0, 0];

const HIGH: &[i32] = &[0, 0, 0, 10, 40, 60, 50, 40, 50, 60, 40, 10, 0, 0, 0];

const RISING: &[i32] = &[0, 0, 0, 20, 60, 100, 80, 60, 40];

const FAR: &[i32] = &[-100_000_000, 100_000_000];

type Times = Option<(u64, u64)>;

// Samples, one in a second; a line's ends as sample and level; the start, the apex and the end of a peak on it; where it
// crosses half its height and one twentieth of it.
const PEAKS: [(&[i32], (u32, i32), (u32, i32), [u32; 3], Times, Times); 7] = [
    (
        ONE,
        (1, 0),
        (8, 0),
        [1, 5, 8],
        Some((3_666_666, 6_333_333)),
        Some((2_300_000, 7_700_000)),
    ),
    (
        TWO,
        (1, 0),
        (12, 0),
        [1, 5, 7],
        Some((3_666_666, 6_500_000)),
        None,
    ),
    (
        TWO,
        (1, 0),
        (12, 0),
        [7, 9, 12],
        Some((7_500_000, 10_333_333)),
        None,
    ),
    (
        RISING,
        (1, 0),
        (8, 40),
        [1, 5, 8],
        Some((3_875_000, 6_500_000)),
        Some((2_670_000, 7_850_000)),
    ),
    // The valley between the two is above half height.
    (HIGH, (1, 0), (12, 0), [1, 5, 7], None, None),
    (HIGH, (1, 0), (12, 0), [7, 9, 12], None, None),
    // A part behind a drop line, whose apex is its first sample.
    (ONE, (1, 0), (8, 0), [6, 6, 8], None, None),
];

// Samples, one in a second; the ends of a window in milliseconds; the noise in it.
const WINDOWS: [(&[i32], u32, u32, Option<u32>); 10] = [
    (ONE, 3000, 6000, Some(50)),
    (ONE, 3000, 6001, Some(50)),
    (ONE, 3001, 6000, Some(20)),
    (ONE, 3000, 5000, Some(30)),
    (ONE, 3000, 4000, None),
    (ONE, 0, 3000, None),
    (ONE, 0, 3001, Some(10)),
    (ONE, 7000, 4_294_967_295, Some(10)),
    (ONE, 6000, 3000, None),
    (FAR, 0, 1001, Some(200_000_000)),
];

// Both crossings of a peak; None where its range is not within the line or the line not within the trace.
fn widths<L: Ledger>(
    blank: Blank,
    trace: &Trace,
    line: &Line,
    range: [u32; 3],
) -> Option<(Times, Times)>
    requires name { blank.name ≡ L.name }
    requires parts { blank.parts ≡ L.parts }
    requires some { 0 < blank.parts }
{
    let mut steps = Steps::<L>::new(blank);
    let [start, apex, end] = range;
    if line.from >= line.to || line.to >= trace.len() {
        return None;
    }
    if start < line.from || apex < start || end < apex || line.to < end {
        return None;
    }
    if height_by_span(apex, line, trace, &mut steps) <= 0 {
        return None;
    }
    let half = crossings(start, apex, end, line, 10, trace, &mut steps);
    let twentieth = crossings(start, apex, end, line, 1, trace, &mut steps);
    Some((half, twentieth))
}

#[test]
fn known_peaks_are_crossed_at_half_height_and_at_a_twentieth(rt: HostRuntime) -> Result<(), Fail> {
    for (samples, (from, from_y), (to, to_y), range, half, twentieth) in PEAKS {
        let trace = Trace::from_samples(rt.alloc(), 1_000_000, samples)?;
        let line = Line {
            from,
            from_y,
            to,
            to_y,
        };
        let got = widths::<Brand>(Blank::new(1), &trace, &line, range);
        assert_eq!(rt;
            got,
            Some((half, twentieth)),
            "for {range:?} of {samples:?}"
        );
    }
    Ok(())
}

// Samples, one in so many microseconds; the start, the apex and the end of a peak; its rules and its time.
const TIMES: [(&[i32], u64, [u32; 3], u8, u64); 10] = [
    (ONE, 1_000_000, [1, 5, 8], 1, 5_000_000),
    (ONE, 1_000_000, [1, 5, 8], 2, 5_000_000),
    (RISING, 1_000_000, [1, 5, 8], 1, 5_000_000),
    (RISING, 1_000_000, [1, 5, 8], 2, 5_166_666),
    (HIGH, 1_000_000, [1, 5, 7], 2, 5_166_666),
    // An offset of -166,666.6 is rounded down.
    (HIGH, 1_000_000, [7, 9, 12], 2, 8_833_333),
    // A part behind a drop line, whose apex is its first sample, and one whose apex is its last.
    (ONE, 1_000_000, [6, 6, 8], 2, 6_000_000),
    (RISING, 1_000_000, [1, 5, 5], 2, 5_000_000),
    // Half of a period behind the apex, and half of one before it, rounded down.
    (&[0, 60, 60, 0], 7, [0, 1, 3], 2, 10),
    (&[99, 100, 0], 1, [0, 1, 2], 2, 0),
];

// The time of a peak; None where its range is not within the trace, or the apex is no crest.
fn time_of<L: Ledger>(blank: Blank, trace: &Trace, range: [u32; 3], rules: u8) -> Option<u64>
    requires name { blank.name ≡ L.name }
    requires parts { blank.parts ≡ L.parts }
    requires some { 0 < blank.parts }
{
    let mut steps = Steps::<L>::new(blank);
    let [start, apex, end] = range;
    if apex < start || end < apex || end >= trace.len() {
        return None;
    }
    if start < apex && apex < end {
        let here = trace.at(apex, &mut steps);
        let rises = trace.at(apex - 1, &mut steps) < here;
        let falls = trace.at(apex + 1, &mut steps) <= here;
        if !rises || !falls {
            return None;
        }
    }
    Some(peak_time(start, apex, end, rules, trace, &mut steps))
}

#[test]
fn a_peak_has_the_time_of_its_vertex_under_rules_2(rt: HostRuntime) -> Result<(), Fail> {
    for (samples, period, range, rules, want) in TIMES {
        let trace = Trace::from_samples(rt.alloc(), period, samples)?;
        let got = time_of::<Brand>(Blank::new(1), &trace, range, rules);
        assert_eq!(rt; got, Some(want), "for {range:?} of {samples:?}");
    }
    Ok(())
}

fn noise_of<L: Ledger>(blank: Blank, trace: &Trace, from_ms: u32, to_ms: u32) -> Option<u32>
    requires name { blank.name ≡ L.name }
    requires parts { blank.parts ≡ L.parts }
    requires some { 0 < blank.parts }
{
    let mut steps = Steps::<L>::new(blank);
    noise(trace, from_ms, to_ms, &mut steps)
}

#[test]
fn the_noise_is_the_range_of_a_window_without_its_end(rt: HostRuntime) -> Result<(), Fail> {
    for (samples, from_ms, to_ms, want) in WINDOWS {
        let trace = Trace::from_samples(rt.alloc(), 1_000_000, samples)?;
        let got = noise_of::<Brand>(Blank::new(1), &trace, from_ms, to_ms);
        assert_eq!(rt; got, want, "from {from_ms} to {to_ms} of {samples:?}");
    }
    Ok(())
}

#[test]
fn figures_of_known_peaks_are_shown_cut(rt: HostRuntime) -> Result<(), Fail> {
    let seventh = |num| Ratio { num, den: 7 };
    let rows: [(Frac, &str); 10] = [
        (plates(5_000_000, 2_666_667), "19.47"),
        (tailing(5_000_000, 2_300_000, 7_700_000), "1.00"),
        (tailing(5_000_000, 2_670_000, 7_850_000), "1.11"),
        (
            resolution(5_000_000, 2_833_334, 9_000_000, 2_833_333),
            "0.83",
        ),
        (
            resolution(9_000_000, 2_833_333, 5_000_000, 2_833_334),
            "0.83",
        ),
        (signal_noise(seventh(540), 50), "3.08"),
        (retention(5_000_000, 2_000_000), "1.50"),
        (retention(1_000_000, 2_000_000), "-0.50"),
        (peak_valley(seventh(420), seventh(140)), "3.00"),
        (peak_valley(seventh(540), Ratio { num: 9, den: 2 }), "17.14"),
    ];
    for (figure, want) in rows {
        let text: Text = figure.digits(rt.alloc(), 2)?;
        assert_eq!(rt; text.as_str(), want);
    }
    Ok(())
}
