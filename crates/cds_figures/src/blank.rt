//! The noise of a blank.
ghost use Rattle.std.specs.Prelude.{◌≡◌, ◌+◌, ◌*◌, ◌∷◌, ◌++◌, [], ◌<◌, ◌≤◌, ℤ, List, Some, IfSome, length};
ghost use Rattle.cds_figures.specs.Extents.{extent_of};
ghost use Rattle.cds_figures.specs.Noise.{samples_in, noise_of};

use cds_base::{Steps, is_in_window};
use cds_trace::Trace;
use std::sync::ledger::Ledger;

/// The least and the greatest of some samples, in counts.
#[derive(Clone, Copy, Debug)]
pub(crate) struct Extent {
    pub least: i32,
    pub greatest: i32,
}

/// The extent of some samples and one more.
fn widened(extent: Option<Extent>, sample: i32) -> Extent
    ensures { (samples : List ℤ) → extent ≡ extent_of samples → Some result ≡ extent_of (samples ++ sample ∷ []) }
{
    match extent {
        None => Extent {
            least: sample,
            greatest: sample,
        },
        Some(extent) => Extent {
            least: extent.least.min(sample),
            greatest: extent.greatest.max(sample),
        },
    }
}

/// The extent of the samples whose times lie in a window. One step for each of them.
fn extent_in<L: Ledger>(
    trace: &Trace,
    from_ms: u32,
    to_ms: u32,
    steps: &mut Steps<L>,
) -> Option<Extent>
    ensures value { result ≡ extent_of (samples_in trace.now from_ms to_ms (length trace.now.samples)) }
    ensures least { steps.old ≤ steps.new }
    ensures counted { steps.new ≤ steps.old + length trace.now.samples }
{
    let period = trace.period();
    let mut extent = None;
    for i in 0..trace.len() {
        if is_in_window(from_ms, to_ms, u64::from(i) * period) {
            extent = Some(widened(extent, trace.at(i, steps)));
        }
    }
    extent
}

/// The noise of a blank: the greatest minus the least of its samples in the window from `from_ms` up to and without
/// `to_ms`, in milliseconds from the start of the trace, as a number of counts. None exactly where fewer than two samples
/// lie in the window, or all that do are alike. This project's own rule. It takes no memory. At most one step for each
/// sample of the trace.
pub fn noise<L: Ledger>(
    trace: &Trace,
    from_ms: u32,
    to_ms: u32,
    steps: &mut Steps<L>,
) -> Option<u32>
    ensures value { result ≡ noise_of trace.now from_ms to_ms }
    ensures positive { IfSome result (λ noise. 0 < noise) }
    ensures least { steps.old ≤ steps.new }
    ensures counted { steps.new ≤ steps.old + length trace.now.samples }
{
    let Some(extent) = extent_in(trace, from_ms, to_ms, steps) else {
        return None;
    };
    let range = extent.greatest.abs_diff(extent.least);
    if range == 0 { None } else { Some(range) }
}
