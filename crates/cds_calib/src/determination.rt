//! How well a straight line fits the points of a calibration.
ghost use Rattle.std.specs.Prelude.{◌≡◌, ◌≤◌, IfOk};
ghost use Rattle.cds_calib.specs.Determination.{if_rising, at_least_of, determination_of, IsDetermination};
ghost use Rattle.cds_calib.specs.Spread.{spread_of, reaches, IsSpread};

use crate::points::Points;
use cds_base::{Missing, Reaching, greatest_reached};
use cds_frac::Frac;
use std::cmp::Ordering;

/// The greatest coefficient of determination, 1, in ten-thousandths.
pub const MOST_DETERMINATION: u32 = 10_000;

/// The corrected sums of points whose line rises.
#[derive(Clone, Copy, Debug)]
struct Spread {
    xx: u128,
    yy: u128,
    xy: u128,
}

impl Points {
    /// Whether the coefficient of determination r^2 of the unweighted line with intercept is at least
    /// `q` ten-thousandths. Missing: `TooFew` where no two amounts differ, and else `NotRising` where
    /// n Sxy - Sx Sy is not positive. It takes no memory.
    pub fn determination_at_least(&self, q: u32) -> Result<bool, Missing>
        ensures { result ≡ at_least_of self.now q }
    {
        let spread = self.spread()?;
        Ok(spread.reaches(q))
    }

    /// The coefficient of determination r^2 of the unweighted line with intercept, in ten-thousandths, rounded down:
    /// the greatest `q`, at most 10,000, such that r^2 is at least q / 10000. Missing as with
    /// `determination_at_least`. It takes no memory.
    pub fn determination(&self) -> Result<u32, Missing>
        ensures value { result ≡ determination_of self.now }
        ensures greatest { IfOk result (IsDetermination self.now) }
        ensures most { IfOk result (λ q. q ≤ MOST_DETERMINATION) }
    {
        let spread = self.spread()?;
        Ok(greatest_reached(&spread, MOST_DETERMINATION))
    }

    /// The corrected sums, where two amounts differ and the line rises.
    fn spread(&self) -> Result<Spread, Missing>
        ensures value { result ≡ if_rising self.now (spread_of self.now) }
        ensures shape { IfOk result IsSpread }
    {
        let xx = self.corrected_xx();
        if xx == 0 {
            return Err(Missing::TooFew);
        }
        let xy = self.corrected_xy();
        if xy == 0 {
            return Err(Missing::NotRising);
        }
        let yy = self.corrected_yy();
        Ok(Spread { xx, yy, xy })
    }
}

impl Reaching for Spread {
    ghost is_fit = { IsSpread };

    ghost reached = { reaches };

    /// Whether r^2 is at least q / 10000. Its two products have up to 220 bits, so they are not formed:
    /// 10000 xy xy >= q xx yy exactly where 10000 xy / (xx q) >= yy / xy.
    fn reaches(&self, q: u32) -> bool {
        if q == 0 {
            return true;
        }
        let explained = Frac::new(
            (u128::from(MOST_DETERMINATION) * self.xy) as i128,
            (self.xx * u128::from(q)) as i128,
        );
        let total = Frac::new(self.yy as i128, self.xy as i128);
        explained.cmp(&total) != Ordering::Less
    }
}
