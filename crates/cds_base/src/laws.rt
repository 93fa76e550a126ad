//! Laws of the shared words. Each is proved by its contract, and its body does nothing.
ghost use Rattle.std.specs.Prelude.{◌≡◌, ◌^◌, ◌-◌};
ghost use Rattle.cds_base.specs.declared.clock.TheConstants.{MOMENT_LIMIT};
ghost use Rattle.cds_base.specs.declared.event.TheConstants.{MOST_EVENTS, MOST_SLOPE};
ghost use Rattle.cds_base.specs.declared.limits.TheConstants.{HUNDREDTHS, MOST_AMOUNT};
ghost use Rattle.cds_base.specs.declared.name.TheConstants.{FULL_STOP, HYPHEN, MOST_NAME_BYTES, UNDERSCORE};
ghost use Rattle.cds_base.specs.declared.peak.TheConstants.{AREA_LIMIT, HEIGHT_LIMIT};
ghost use Rattle.cds_base.specs.declared.time.TheConstants.{LAST_TIME_MS, LAST_TIME_US, MILLISECOND_US};
ghost use Rattle.cds_base.specs.Faults.{most_faults};

/// The limits that definitions cite: of a name and its marks, of moments, of times, of events, of amounts, of hundredths, of areas
/// and of heights, and of counts of faults.
pub fn the_limits()
    ensures name { MOST_NAME_BYTES ≡ 64 }
    ensures marks { (HYPHEN ≡ 45) × (UNDERSCORE ≡ 95) × (FULL_STOP ≡ 46) }
    ensures moments { MOMENT_LIMIT ≡ 253402300800 }
    ensures times { (MILLISECOND_US ≡ 1000) × (LAST_TIME_US ≡ 14400000000) × (LAST_TIME_MS ≡ 14400000) }
    ensures events { (MOST_EVENTS ≡ 64) × (MOST_SLOPE ≡ 1000000000) }
    ensures amounts { MOST_AMOUNT ≡ 1000000000 }
    ensures hundredths { HUNDREDTHS ≡ 100 }
    ensures measures { (AREA_LIMIT ≡ 2 ^ 52) × (HEIGHT_LIMIT ≡ 2 ^ 60) }
    ensures faults { most_faults ≡ 2 ^ 64 - 1 }
{}
