//! The weights of a line, which are over the least common multiple of the amounts.
ghost use Rattle.std.specs.Prelude.{◌≡◌, ◌^◌, ◌<◌, All};
ghost use Rattle.std.specs.Option.{SomeIff};
ghost use Rattle.cds_calib.specs.Points.{IsPoint, IsCalibration};
ghost use Rattle.cds_calib.specs.Fit.{common_multiple, sum_w, sum_wy};

use crate::point::Point;
use cds_frac::{LCM_LIMIT, lcm};

/// The least common multiple of the amounts. None exactly where it is `LCM_LIMIT`, 2^60, or more.
pub fn common_multiple(points: &[Point]) -> Option<u64>
    requires { All IsPoint points.now }
    ensures { SomeIff result (common_multiple points.now < LCM_LIMIT) (common_multiple points.now) }
{
    let mut multiple = 1;
    for point in points {
        let Some(next) = lcm(multiple, u64::from(point.amount)) else {
            return None;
        };
        multiple = next;
    }
    Some(multiple)
}

/// The sums Sw of the weights M / x and Swy of the areas so weighted, M being `multiple`.
#[derive(Clone, Copy, Debug)]
pub struct Weighted {
    pub w: u128,
    pub wy: u128,
}

/// The weighted sums of the points.
pub fn weighted_sums(points: &[Point], multiple: u64) -> Weighted
    requires points { IsCalibration points.now }
    requires multiple { multiple < LCM_LIMIT }
    ensures w { result.w ≡ sum_w multiple points.now }
    ensures wy { result.wy ≡ sum_wy multiple points.now }
    ensures w_bound { result.w < 2 ^ 66 }
    ensures wy_bound { result.wy < 2 ^ 118 }
{
    let mut sums = Weighted { w: 0, wy: 0 };
    for point in points {
        let weight = u128::from(multiple / u64::from(point.amount));
        sums.w += weight;
        sums.wy += weight * u128::from(point.area);
    }
    sums
}
