//! Where a tangent ends.
ghost use Rattle.std.specs.Prelude.{◌≡◌, ◌+◌, ◌-◌, ◌^◌, ◌<◌, ◌≤◌, ℕ, true, length, ◌-ℤ◌, unsigned_abs};
ghost use Rattle.cds_trace.specs.Signal.{sample_at, IsSample};
ghost use Rattle.cds_baseline.specs.Chord.{is_over};
ghost use Rattle.cds_baseline.specs.Tangent.{tangent_sample};

use crate::slopes::{Slope, is_at_most};
use cds_base::Steps;
use cds_trace::Trace;
use std::sync::ledger::Ledger;

/// The slope of the chord from the sample `v`, of the level `base`, to the sample `j`. One step.
fn slope_to<L: Ledger>(v: u32, base: i32, j: u32, trace: &Trace, steps: &mut Steps<L>) -> Slope
    requires order { v < j }
    requires within { j < length trace.now.samples }
    requires base { base ≡ sample_at trace.now v }
    requires small { IsSample base }
    ensures rise { result.rise ≡ sample_at trace.now j -ℤ sample_at trace.now v }
    ensures run { result.run ≡ j - v }
    ensures small { unsigned_abs result.rise ≤ 2 ^ 30 }
    ensures counted { steps.new ≡ steps.old + 1 }
{
    Slope {
        rise: i64::from(trace.at(j, steps)) - i64::from(base),
        run: j - v,
    }
}

/// The sample at which the tangent from the valley `v` ends: the greatest `j` from `v + 1` to `end` such that no sample
/// from `v` to `j` lies under the straight line from sample `v` to sample `j`. It needs `v < end`, and `end` within the
/// trace. This project's own rule. One step for each sample from `v` to `end`.
pub fn tangent<L: Ledger>(v: u32, end: u32, trace: &Trace, steps: &mut Steps<L>) -> u32
    requires order { v < end }
    requires within { end < length trace.now.samples }

    ensures value { result ≡ tangent_sample trace.now v end }
    ensures beyond { v < result }
    ensures inside { result ≤ end }
    ensures clear { (k : ℕ) → v ≤ k → k ≤ result → is_over trace.now v result k ≡ true }
    ensures counted { steps.new ≡ steps.old + (end - v + 1) }
{
    let samples = trace.len();
    prove!(end < samples);
    let base = trace.at(v, steps);
    let mut last = v + 1;
    let mut least = slope_to(v, base, last, trace, steps);
    for j in v + 2..end + 1 {
        let slope = slope_to(v, base, j, trace, steps);
        if is_at_most(slope, least) {
            last = j;
            least = slope;
        }
    }
    last
}
