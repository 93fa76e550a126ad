//! Raw peaks of small traces, worked out by hand.
ghost use Rattle.std.specs.Prelude.{◌≡◌, ◌<◌};

use super::raw_peaks;
use crate::raw::Raw;
use cds_base::{Event, RawPeak, Steps};
use cds_rules::Method;
use cds_trace::Trace;
use std::alloc::Global;
use std::marker::Brand;
use std::sync::ledger::{Blank, Ledger};
use std::test::Fail;

const ONE_PEAK: &[i32] = &[0, 0, 0, 10, 40, 60, 40, 10, 0, 0, 0];

/// Bunches of four with the sums 0, 0, 200, 400, 200, 0, 0, 0, and two samples that are left over.
const BUNCHED: &[i32] = &[
    0, 0, 0, 0, 0, 0, 0, 0, 20, 40, 60, 80, 90, 110, 110, 90, 80, 60, 40, 20, 0, 0, 0, 0, 0, 0, 0,
    0, 0, 0, 0, 0, 0, 0,
];

/// The same, but that the classes end in the fall.
const BUNCHED_TO_THE_END: &[i32] = &[
    0, 0, 0, 0, 0, 0, 0, 0, 20, 40, 60, 80, 90, 110, 110, 90, 80, 60, 40, 20, 0, 0, 0, 0, 5, 5,
];

/// What the methods have in common: slopes of 5 and a plateau of 3.
const COMMON: &str = "slope_on = 5\nslope_off = 5\nplateau = 3\nfuse = 2\nmin_area = 1\n\
    min_height = 1\nweight = \"equal\"\n";

/// A method of single samples, and methods of bunches of four with events.
const SINGLE: &str = "bunch = 1\n";

const FOUR: &str = "bunch = 4\n";

const SHALLOW: &str = "bunch = 4\n[[event]]\nkind = \"slope\"\nat_ms = 8000\non = 5\noff = 20\n";

const HIDDEN_CLIMB: &str =
    "bunch = 4\n[[event]]\nkind = \"inhibit\"\nfrom_ms = 4000\nto_ms = 8000\n";

const HIDDEN_FALL: &str =
    "bunch = 4\n[[event]]\nkind = \"inhibit\"\nfrom_ms = 16000\nto_ms = 20000\n";

/// A trace of one sample a second, a method, the manual events of a row, and the raw peaks that are worked out by hand: of
/// each its start, its apex and its end.
#[derive(Clone, Copy)]
struct Row {
    shows: &'static str,
    method: &'static str,
    samples: &'static [i32],
    manual: &'static [Event],
    peaks: &'static [(u32, u32, u32)],
}

const ROWS: [Row; 17] = [
    Row {
        shows: "one peak",
        method: SINGLE,
        samples: ONE_PEAK,
        manual: &[],
        peaks: &[(1, 5, 8)],
    },
    Row {
        shows: "two peaks with a gap of one sample",
        method: SINGLE,
        samples: &[0, 0, 0, 10, 40, 60, 40, 20, 40, 60, 40, 10, 0, 0, 0],
        manual: &[],
        peaks: &[(1, 5, 6), (7, 9, 12)],
    },
    Row {
        shows: "too few samples for a class",
        method: SINGLE,
        samples: &[7, 7],
        manual: &[],
        peaks: &[],
    },
    Row {
        shows: "a climb that is abandoned at its fourth flat class",
        method: SINGLE,
        samples: &[0, 0, 10, 10, 10, 10, 10, 10, 20, 40, 20, 10, 10, 10],
        manual: &[],
        peaks: &[(6, 9, 11)],
    },
    Row {
        shows: "a fall that ends with the classes",
        method: SINGLE,
        samples: &[0, 0, 0, 20, 60, 100, 80, 60, 40],
        manual: &[],
        peaks: &[(1, 5, 8)],
    },
    Row {
        shows: "an apex at the end of its range",
        method: SINGLE,
        samples: &[0, 10, 20, 0, 20],
        manual: &[],
        peaks: &[],
    },
    Row {
        shows: "a window that has the climb",
        method: SINGLE,
        samples: ONE_PEAK,
        manual: &[Event::Inhibit { from: 0, to: 6000 }],
        peaks: &[],
    },
    Row {
        shows: "a window that ends where the climb begins",
        method: SINGLE,
        samples: ONE_PEAK,
        manual: &[Event::Inhibit { from: 0, to: 1000 }],
        peaks: &[(1, 5, 8)],
    },
    Row {
        shows: "a slope that the signal doesn't reach",
        method: SINGLE,
        samples: ONE_PEAK,
        manual: &[Event::Slope {
            at: 0,
            on: 30,
            off: 5,
        }],
        peaks: &[],
    },
    Row {
        shows: "the later slope of the same time",
        method: SINGLE,
        samples: ONE_PEAK,
        manual: &[
            Event::Slope {
                at: 0,
                on: 30,
                off: 5,
            },
            Event::Slope {
                at: 0,
                on: 5,
                off: 5,
            },
        ],
        peaks: &[(1, 5, 8)],
    },
    Row {
        shows: "bunches of four, and two samples left over",
        method: FOUR,
        samples: BUNCHED,
        manual: &[],
        peaks: &[(0, 13, 20)],
    },
    Row {
        shows: "bunches of four whose classes end in the fall, which the samples left over belong to",
        method: FOUR,
        samples: BUNCHED_TO_THE_END,
        manual: &[],
        peaks: &[(0, 13, 25)],
    },
    Row {
        shows: "a slope of the method's that the fall doesn't reach, so that flat classes end the climb",
        method: SHALLOW,
        samples: BUNCHED,
        manual: &[],
        peaks: &[],
    },
    Row {
        shows: "a later slope of the row's than the method's",
        method: SHALLOW,
        samples: BUNCHED,
        manual: &[Event::Slope {
            at: 12000,
            on: 5,
            off: 5,
        }],
        peaks: &[(0, 13, 20)],
    },
    Row {
        shows: "a slope of the row's at the time of the method's",
        method: SHALLOW,
        samples: BUNCHED,
        manual: &[Event::Slope {
            at: 8000,
            on: 5,
            off: 5,
        }],
        peaks: &[(0, 13, 20)],
    },
    Row {
        shows: "a window of the method's in the climb",
        method: HIDDEN_CLIMB,
        samples: BUNCHED,
        manual: &[],
        peaks: &[],
    },
    Row {
        shows: "a window of the method's that ends the fall, and a slope of the row's that the first rise doesn't reach",
        method: HIDDEN_FALL,
        samples: BUNCHED,
        manual: &[Event::Slope {
            at: 0,
            on: 7,
            off: 5,
        }],
        peaks: &[(4, 13, 16)],
    },
];

fn found_by<L: Ledger>(
    alloc: Global,
    blank: Blank,
    method: &Method,
    samples: &[i32],
    manual: &[Event],
) -> Result<Raw, Fail>
    requires name { blank.name ≡ L.name }
    requires parts { blank.parts ≡ L.parts }
    requires some { 0 < blank.parts }
{
    let mut steps: Steps<L> = Steps::new(blank);
    let trace = Trace::from_samples(alloc, 1_000_000, samples)?;
    Ok(raw_peaks(alloc, &trace, method, manual, &mut steps)?)
}

fn found(alloc: Global, method: &str, samples: &[i32], manual: &[Event]) -> Result<Raw, Fail> {
    let mut text = String::from_str(alloc, COMMON)?;
    text.push_str(method)?;
    let method = Method::read_toml(alloc, text.as_bytes())?;
    found_by::<Brand>(alloc, Blank::new(1), &method, samples, manual)
}

#[test]
fn raw_peaks_are_those_worked_out_by_hand(rt: HostRuntime) -> Result<(), Fail> {
    for row in &ROWS {
        let Raw::List(peaks) = found(rt.alloc(), row.method, row.samples, row.manual)? else {
            return Err(Fail::from("too many"));
        };
        assert_eq!(rt; peaks.len(), row.peaks.len(), "{}", row.shows);
        for (peak, (start, apex, end)) in peaks.as_slice().iter().zip(row.peaks) {
            assert_eq!(rt;
                (peak.start, peak.apex, peak.end),
                (*start, *apex, *end),
                "{}",
                row.shows
            );
        }
    }
    Ok(())
}

#[test]
fn more_than_500_peaks_are_too_many(rt: HostRuntime) -> Result<(), Fail> {
    let mut samples = Vec::new(rt.alloc());
    for _ in 0..500 {
        samples.extend_from_slice(ONE_PEAK)?;
    }
    let Raw::List(peaks) = found(rt.alloc(), SINGLE, samples.as_slice(), &[])? else {
        return Err(Fail::from("500 are too many"));
    };
    assert_eq!(rt; peaks.len(), 500);
    samples.extend_from_slice(ONE_PEAK)?;
    let Raw::TooMany(number) = found(rt.alloc(), SINGLE, samples.as_slice(), &[])? else {
        return Err(Fail::from("501 are a list"));
    };
    assert_eq!(rt; number, 501);
    Ok(())
}
