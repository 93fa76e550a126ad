//! Laws of the figures. Each is proved by its contract, and its body does nothing.
ghost use Rattle.std.specs.Prelude.{◌≡◌, ℕ, ◌*◌};
ghost use Rattle.cds_trace.specs.Signal.{Signal};
ghost use Rattle.cds_figures.specs.PeakTime.{peak_time_of};
ghost use Rattle.cds_figures.specs.declared.formulas.TheConstants.{RESOLUTION_HUNDREDTHS, PLATES_HUNDREDTHS};
ghost use Rattle.cds_figures.specs.declared.times.TheConstants.{VERTEX_RULES};
ghost use Rattle.cds_figures.specs.declared.widths.TheConstants.{TWENTIETHS};

/// The numbers that definitions cite: of the parts of a height, of the rules under which a vertex gives the time, and
/// of the factors of resolution and plates.
pub fn the_numbers()
    ensures parts { TWENTIETHS ≡ 20 }
    ensures rules { VERTEX_RULES ≡ 2 }
    ensures factors { (RESOLUTION_HUNDREDTHS ≡ 118) × (PLATES_HUNDREDTHS ≡ 554) }
{}

/// Under rules 1 the time of a peak is that of its apex sample, whatever its range.
pub fn under_rules_1()
    ensures { (signal : Signal) (start apex end : ℕ) → peak_time_of signal 1 start apex end ≡ apex * signal.period }
{}
