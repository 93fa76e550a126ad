//! Bunches of samples and their sums.
ghost use Rattle.std.specs.Prelude.{◌≡◌, ◌+◌, ◌/◌, ◌<◌, ◌≤◌, length};
ghost use Rattle.cds_trace.specs.Signal.{IsTrace};
ghost use Rattle.cds_detect.specs.Classes.{class_count, bunch_sum};
ghost use Rattle.cds_detect.specs.Bunches.{IsBunchSum};

use cds_base::Steps;
use cds_rules::MOST_BUNCH;
use cds_trace::Trace;
use std::sync::ledger::Ledger;

/// The greatest sum of a bunch, in counts, where each of its at most 64 samples is 100,000,000; the least is its
/// negative.
pub(crate) const GREATEST_BUNCH_SUM: i64 = 6_400_000_000;

/// How many classes a trace of this many samples has.
pub(crate) fn class_count(samples: u32, bunch: u32) -> u32
    requires { 1 ≤ bunch }
    ensures { result ≡ class_count samples bunch }
{
    (samples / bunch).saturating_sub(2)
}

/// The sum of the samples of bunch `j`. Two steps.
pub(crate) fn bunch_sum<L: Ledger>(trace: &Trace, bunch: u32, j: u32, steps: &mut Steps<L>) -> i64
    requires least { 1 ≤ bunch }
    requires most { bunch ≤ MOST_BUNCH }
    requires trace { IsTrace trace.now }
    requires whole { j < length trace.now.samples / bunch }
    ensures value { result ≡ bunch_sum trace.now bunch j }
    ensures range { IsBunchSum result }
    ensures counted { steps.new ≡ steps.old + 2 }
{
    trace.sum(j * bunch, j * bunch + bunch, steps)
}
