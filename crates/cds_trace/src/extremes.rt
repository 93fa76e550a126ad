//! The first greatest sample of a range.
ghost use Rattle.std.specs.Prelude.{◌≡◌, ◌+◌, ◌<◌, ◌≤◌, length};
ghost use Rattle.cds_trace.specs.Extremes.{first_greatest};
ghost use Rattle.cds_trace.specs.Signal.{sample_at};

use crate::trace::Trace;
use cds_base::Steps;
use std::sync::ledger::Ledger;

/// A sample of the signal, by its index, and its level, in counts.
#[derive(Clone, Copy, Debug, PartialEq, Eq)]
pub struct Top {
    pub sample: u32,
    pub level: i32,
}

/// The first greatest sample of the range from `from` to `to`, its ends in it, which must lie within the trace. It takes
/// no memory. One step for each sample of the range.
pub fn first_greatest<L: Ledger>(from: u32, to: u32, trace: &Trace, steps: &mut Steps<L>) -> Top
    requires order { from ≤ to }
    requires end { to < length trace.now.samples }

    ensures value { result.sample ≡ first_greatest trace.now from to }
    ensures level { result.level ≡ sample_at trace.now result.sample }
    ensures low { from ≤ result.sample }
    ensures high { result.sample ≤ to }
    ensures counted { steps.new + from ≡ steps.old + to + 1 }
{
    let samples = trace.len();
    prove!(to < samples);
    let mut sample = from;
    let mut level = trace.at(from, steps);
    for i in from + 1..to + 1 {
        let next = trace.at(i, steps);
        if next > level {
            sample = i;
            level = next;
        }
    }
    Top { sample, level }
}
