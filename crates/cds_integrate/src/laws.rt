//! Laws of a row, over its definitions alone. Each is proved by its contract, and its body does nothing.
ghost use Rattle.std.specs.Prelude.{◌≡◌, ◌*◌, ◌≤◌, List, All, length};
ghost use Rattle.cds_base.specs.declared.event.Event.{Event};
ghost use Rattle.cds_rules.specs.Fields.{Fields};
ghost use Rattle.cds_trace.specs.Signal.{Signal, IsTrace};
ghost use Rattle.cds_integrate.specs.declared.peaks.TheConstants.{HALF, TWENTIETH};
ghost use Rattle.cds_integrate.specs.Row.{Answer, peaks_in, most_peaks, StandsIn, AreComponents, IsRow};
ghost use Rattle.cds_integrate.specs.Sums.{Conserves, Sums};
ghost use Rattle.cds_integrate.specs.Seen.{seen, row_seen};

/// The levels at which widths are taken, in twentieths of the height: half of it, and one twentieth.
pub fn the_levels()
    ensures { (HALF ≡ 10) × (TWENTIETH ≡ 1) }
{}

/// Between each two neighbouring nodes of each cluster's baseline the exact areas of all parts of a row whose ranges
/// lie there, riders and rejected ones included, are together the area over the whole line from the one node to the
/// other.
pub fn areas_are_conserved()
    ensures { (signal : Signal) (fields : Fields) (manual : List Event) → IsTrace signal →
        Conserves signal fields manual }
{}

/// Between each two neighbouring nodes of each cluster's baseline, where no part of the row whose range lies there is
/// rejected, the exact areas of the row's peaks there are together the area over the whole line.
pub fn areas_of_peaks_are_conserved()
    ensures { (signal : Signal) (fields : Fields) (manual : List Event) (row : Answer)
        → IsTrace signal → IsRow signal fields manual row → Sums signal fields manual row }
{}

/// Each peak of a row ends within its trace, its apex is a crest where it lies strictly inside, its time isn't behind
/// the last sample, its left crossings lie before the apex, and its right ones not behind the last sample. Its
/// component is one of the method's, no two peaks are of one component, and there are at most as many peaks as a row
/// may have raw peaks, and one for each drop event.
pub fn peaks_stand()
    ensures stand { (signal : Signal) (fields : Fields) (manual : List Event) (row : Answer)
        → IsTrace signal → IsRow signal fields manual row → All (StandsIn signal) (peaks_in row) }
    ensures components { (signal : Signal) (fields : Fields) (manual : List Event) (row : Answer)
        → IsRow signal fields manual row → AreComponents fields (peaks_in row) }
    ensures few { (signal : Signal) (fields : Fields) (manual : List Event) (row : Answer)
        → IsTrace signal → IsRow signal fields manual row → length (peaks_in row) ≤ most_peaks fields manual }
{}

/// Under rules 1 the time of each peak is that of its apex sample.
pub fn first_rules_take_the_apex_sample()
    ensures { (signal : Signal) (fields : Fields) (manual : List Event) (row : Answer)
        → fields.rules ≡ 1 → IsRow signal fields manual row
        → All (λ peak. peak.time_us ≡ peak.apex * signal.period) (peaks_in row) }
{}

/// Every answer that may be the row of a trace, shown in plain numbers with its ratios in lowest terms, is the one that
/// the signal, the fields and the events give.
pub fn rows_are_determined()
    ensures { (signal : Signal) (fields : Fields) (manual : List Event) (row : Answer)
        → IsTrace signal → IsRow signal fields manual row → seen row ≡ row_seen signal fields manual }
{}
