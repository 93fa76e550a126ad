//! Laws of calibration. Each is proved by its contract, and its body does nothing.
ghost use Rattle.std.specs.Prelude.{◌≡◌, ◌*◌, ◌/◌, ◌^◌, List, Ok};
ghost use Rattle.cds_calib.specs.declared.determination.TheConstants.{MOST_DETERMINATION};
ghost use Rattle.cds_calib.specs.declared.point.Point.{Point};
ghost use Rattle.cds_calib.specs.declared.point.TheConstants.{MOST_POINTS};
ghost use Rattle.cds_calib.specs.Fit.{CalibrationLine, fit_of, common_multiple};
ghost use Rattle.cds_calib.specs.Fit.{divisor_limit, slope_limit, intercept_limit};
ghost use Rattle.cds_calib.specs.LeastSquares.{MeetsNormalEquations};
ghost use Rattle.cds_calib.specs.Points.{IsCalibration, sum_xx, sum_xy};
ghost use Rattle.cds_rules.specs.declared.method.Weight.TheVariants.{Equal, Origin, Inverse};

/// A line of weight `Equal` is the least squares line: with 1 as the weight of each point it meets the normal
/// equations.
pub fn equal_lines_are_least_squares()
    ensures { (points : List Point) (line : CalibrationLine) → fit_of Equal points ≡ Ok line
        → MeetsNormalEquations (λ p. 1) points line }
{}

/// A line of weight `Origin` is the least squares line through the origin: b Sxx = Sxy, times the divisor.
pub fn origin_lines_are_least_squares()
    ensures { (points : List Point) (line : CalibrationLine) → fit_of Origin points ≡ Ok line
        → line.slope * sum_xx points ≡ line.divisor * sum_xy points }
{}

/// A line of weight `Inverse` is the weighted least squares line: with M / x as the weight of a point of the amount x,
/// M being the least common multiple of the amounts, it meets the normal equations.
pub fn inverse_lines_are_least_squares()
    ensures { (points : List Point) (line : CalibrationLine) → IsCalibration points → fit_of Inverse points ≡ Ok line
        → MeetsNormalEquations (λ p. common_multiple points / p.amount) points line }
{}

/// The limits that definitions cite.
pub fn the_limits()
    ensures points { MOST_POINTS ≡ 64 }
    ensures determination { MOST_DETERMINATION ≡ 10000 }
    ensures divisors { (divisor_limit Equal ≡ 2 ^ 72) × (divisor_limit Origin ≡ 2 ^ 66)
        × (divisor_limit Inverse ≡ 2 ^ 102) }
    ensures slopes { (slope_limit Equal ≡ 2 ^ 94) × (slope_limit Origin ≡ 2 ^ 88) × (slope_limit Inverse ≡ 2 ^ 124) }
    ensures intercepts { (intercept_limit Equal ≡ 2 ^ 124) × (intercept_limit Origin ≡ 1)
        × (intercept_limit Inverse ≡ 2 ^ 126) }
{}
