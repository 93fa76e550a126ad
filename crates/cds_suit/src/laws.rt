//! Laws of suitability. Each is proved by its contract, and its body does nothing.
ghost use Rattle.std.specs.Prelude.{◌≡◌, ◌++◌, List};
ghost use Rattle.cds_suit.specs.Verdict.{overall_of, joined};
ghost use Rattle.cds_suit.specs.declared.checks.TheConstants.{ONES};
ghost use Rattle.cds_suit.specs.declared.square.TheConstants.{MOST_VALUES, MOST_DEVIATION, ONE_SQUARED};
ghost use Rattle.cds_suit.specs.declared.verdict.Verdict.{Verdict};

/// The verdict of the verdicts of two lists, one behind the other, is what the verdicts of the two come to.
pub fn an_overall_verdict_is_a_fold()
    ensures { (xs ys : List Verdict) → overall_of (xs ++ ys) ≡ joined (overall_of xs) (overall_of ys) }
{}

/// The limits and the units that definitions cite.
pub fn the_limits()
    ensures deviations { (MOST_VALUES ≡ 64) × (MOST_DEVIATION ≡ 80000) × (ONE_SQUARED ≡ 100000000) }
    ensures checks { ONES ≡ 1 }
{}
