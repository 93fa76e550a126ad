//! Laws of traces. Each is proved by its contract, and its body does nothing.
ghost use Rattle.std.specs.Prelude.{◌≡◌, pos};
ghost use Rattle.cds_trace.specs.declared.differences.TheConstants.{SEVEN_BITS};
ghost use Rattle.cds_trace.specs.declared.number.TheConstants.{MOST_DIGITS};
ghost use Rattle.cds_trace.specs.declared.trace.TheConstants.{FEWEST_SAMPLES, GREATEST_SAMPLE, MOST_SAMPLES};

/// The limits that definitions cite: of the number of samples, of a sample, and of the digits of a number in a text,
/// and how many values 7 bits have.
pub fn the_limits()
    ensures samples { (FEWEST_SAMPLES ≡ 2) × (MOST_SAMPLES ≡ 400000) }
    ensures sample { GREATEST_SAMPLE ≡ pos 100000000 }
    ensures digits { MOST_DIGITS ≡ 12 }
    ensures bits { SEVEN_BITS ≡ 128 }
{}
