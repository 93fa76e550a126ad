//! The law of runs. It is proved by its contract, and its body does nothing.
ghost use Rattle.std.specs.Prelude.{Bool, List};
ghost use Rattle.cds_events.specs.Placed.{Placed};
ghost use Rattle.cds_events.specs.Runs.{runs_of, AreMaximal};

/// The runs of peaks, whichever neighbours are fused: together they are the peaks, neighbours inside a run are fused,
/// and the last peak of a run isn't fused with the first of the next one.
pub fn runs_are_maximal()
    ensures { (joins : Placed → Placed → Bool) (peaks : List Placed) → AreMaximal joins peaks (runs_of joins peaks) }
{}
