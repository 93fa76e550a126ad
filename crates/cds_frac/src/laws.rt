//! Laws of fractions. Each is proved by its contract, and its body does nothing.
ghost use Rattle.std.specs.Prelude.{◌≡◌, ◌^◌};
ghost use Rattle.cds_frac.specs.declared.decimals.TheConstants.{MOST_DECIMALS};
ghost use Rattle.cds_frac.specs.declared.divisors.TheConstants.{LCM_LIMIT};
ghost use Rattle.cds_frac.specs.declared.fraction.TheConstants.{PART_LIMIT};

/// The limits that definitions cite: of the parts of a fraction, of a common multiple and of shown decimals.
pub fn the_limits()
    ensures parts { PART_LIMIT ≡ 2 ^ 126 }
    ensures multiples { LCM_LIMIT ≡ 2 ^ 60 }
    ensures decimals { MOST_DECIMALS ≡ 6 }
{}
