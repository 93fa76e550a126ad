//! Areas and heights that are worked by hand.
ghost use Rattle.std.specs.Prelude.{◌≡◌, ◌<◌};

use super::*;
use cds_base::{Line, Steps};
use cds_trace::Trace;
use std::marker::Brand;
use std::sync::ledger::{Blank, Ledger};
use std::test::Fail;

const ONE: &[i32] = &[0, 0, 0, 10, 40, 60, 40, 10, 0, 0, 0];

const TWO: &[i32] = &[0, 0, 0, 10, 40, 60, 40, 20, 40, 60, 40, 10, 0, 0, 0];

const DEEP: &[i32] = &[50, 50, 50, 60, 90, 110, 60, 20, 60, 110, 90, 60, 50, 50, 50];

const RISING: &[i32] = &[0, 0, 0, 20, 60, 100, 80, 60, 40];

// Samples; a line's ends as sample and level; the start, the apex and the end of a range on it; the reported area at one
// sample in a second, and the height at the apex times the samples between the line's ends.
const ROWS: [(&[i32], (u32, i32), (u32, i32), [u32; 3], u64, i128); 12] = [
    (ONE, (1, 0), (8, 0), [1, 5, 8], 160_000, 420),
    (ONE, (1, 0), (8, 0), [1, 5, 6], 130_000, 420),
    (ONE, (1, 0), (8, 0), [6, 6, 8], 30_000, 280),
    (ONE, (2, 0), (7, 10), [2, 5, 7], 130_000, 270),
    (TWO, (1, 0), (12, 0), [1, 5, 7], 160_000, 660),
    (TWO, (1, 0), (12, 0), [7, 9, 12], 160_000, 660),
    (TWO, (1, 0), (12, 0), [1, 5, 12], 320_000, 660),
    (TWO, (7, 20), (12, 0), [7, 9, 12], 110_000, 240),
    (DEEP, (1, 50), (7, 20), [1, 5, 7], 195_000, 480),
    (DEEP, (7, 20), (12, 50), [7, 9, 12], 180_000, 390),
    (RISING, (1, 0), (8, 40), [1, 5, 8], 200_000, 540),
    (RISING, (1, 0), (8, 40), [3, 3, 3], 0, 60),
];

// The reported area over a range and the numerator of the height at its apex; None where the range is not within the
// line, the line not within the trace, or the area past what these rows have.
fn figures<L: Ledger>(
    blank: Blank,
    trace: &Trace,
    line: &Line,
    range: [u32; 3],
) -> Option<(u64, i128)>
    requires name { blank.name ≡ L.name }
    requires parts { blank.parts ≡ L.parts }
    requires some { 0 < blank.parts }
{
    let mut steps = Steps::<L>::new(blank);
    let [start, apex, end] = range;
    if line.from >= line.to || line.to >= trace.len() {
        return None;
    }
    if start < line.from || apex < start || end < apex || line.to < end {
        return None;
    }
    let area = area(start, end, line, trace, &mut steps);
    let height = height(apex, line, trace, &mut steps);
    if area.num < 0 || area.num > 1_000_000_000 {
        return None;
    }
    Some((units(area, 1_000_000), height.num))
}

#[test]
fn ranges_of_known_traces_have_their_areas_and_heights(rt: HostRuntime) -> Result<(), Fail> {
    for (samples, (from, from_y), (to, to_y), range, area, height) in ROWS {
        let trace = Trace::from_samples(rt.alloc(), 1_000_000, samples)?;
        let line = Line {
            from,
            from_y,
            to,
            to_y,
        };
        let got = figures::<Brand>(Blank::new(1), &trace, &line, range);
        assert_eq!(rt; got, Some((area, height)), "for {range:?} of {samples:?}");
    }
    Ok(())
}
