//! Laws of raw peaks. Each is proved by its contract, and its body does nothing.
ghost use Rattle.std.specs.Prelude.{◌≡◌, ◌*◌, pos, ◌*ℤ◌};
ghost use Rattle.cds_detect.specs.declared.bunch.TheConstants.{GREATEST_BUNCH_SUM};
ghost use Rattle.cds_detect.specs.declared.class.TheConstants.{SECOND_US};
ghost use Rattle.cds_detect.specs.declared.raw.TheConstants.{MOST_RAW_PEAKS};
ghost use Rattle.cds_rules.specs.declared.limits.TheConstants.{MOST_BUNCH};
ghost use Rattle.cds_trace.specs.declared.trace.TheConstants.{GREATEST_SAMPLE};

/// The limits that definitions cite: of raw peaks, of the sum of a bunch, and how many microseconds a second has.
pub fn the_limits()
    ensures peaks { MOST_RAW_PEAKS ≡ 500 }
    ensures sum { GREATEST_BUNCH_SUM ≡ pos MOST_BUNCH *ℤ GREATEST_SAMPLE }
    ensures second { SECOND_US ≡ 1000000 }
{}
