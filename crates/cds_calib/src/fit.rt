//! The straight line through the points of a calibration.
ghost use Rattle.std.specs.Prelude.{◌≡◌, ◌*◌, ◌^◌, ◌<◌, pos, ◌-ℤ◌, IsTrue, if◌then◌else◌};
ghost use Rattle.std.specs.Option.{SomeIff};
ghost use Rattle.cds_frac.specs.Fraction.{lowest_terms};
ghost use Rattle.cds_calib.specs.Line.{differ};
ghost use Rattle.cds_calib.specs.Amount.{undiluted, undiluted_fits};
ghost use Rattle.cds_calib.specs.Fit.{fit_of, IsFit, common_multiple, weights_fit, rising, inverse_line};

use crate::multiple::{common_multiple, weighted_sums};
use crate::points::Points;
use cds_base::{AREA_LIMIT, Missing};
use cds_frac::{Frac, LCM_LIMIT, PART_LIMIT, product_below_limit};
use cds_rules::Weight;
use std::marker::Model;

/// A straight line through the points of a calibration, by least squares. Seen as its weight, its divisor and the
/// numerators of slope and intercept over that divisor, not reduced. The slope is positive.
#[derive(Clone, Copy, Debug, PartialEq, Eq)]
pub struct Fit {
    weight: Weight,
    divisor: u128,
    slope: u128,
    intercept: i128,
}

impl Model for Fit {
    ghost use Rattle.cds_calib.specs.Fit.{CalibrationLine, IsFit};

    ghost Value = { CalibrationLine };

    ghost view = { λ f. record { weight = f.weight; divisor = f.divisor; slope = f.slope; intercept = f.intercept } };

    ghost invariant = { λ f. IsFit
        (record { weight = f.weight; divisor = f.divisor; slope = f.slope; intercept = f.intercept }) };

    ghost inverse = { λ l. record { weight = l.weight; divisor = l.divisor; slope = l.slope; intercept = l.intercept } };
}

impl Fit {
    /// The slope: the area that one unit of the amount adds.
    pub fn slope(&self) -> Frac
        ensures value { result ≡ lowest_terms (pos self.now.slope) self.now.divisor }
        ensures shape { IsFit self.now }
    {
        Frac::new(self.slope as i128, self.divisor as i128)
    }

    /// The intercept: the area of the line at the amount 0.
    pub fn intercept(&self) -> Frac
        ensures value { result ≡ lowest_terms self.now.intercept self.now.divisor }
        ensures shape { IsFit self.now }
    {
        Frac::new(self.intercept, self.divisor as i128)
    }

    /// The amount of an area before the dilution, (y - a) / b. None exactly where y D, or y D less the numerator of
    /// the intercept, is `PART_LIMIT`, 2^126, or more in absolute value, D being the divisor.
    pub(crate) fn undiluted(&self, area: u64) -> Option<Frac>
        requires { area < AREA_LIMIT }
        ensures number { SomeIff result (IsTrue (undiluted_fits self.now.weight self.now area))
            (undiluted self.now area) }
        ensures shape { IsFit self.now }
    {
        let scaled = product_below_limit(u128::from(area), self.divisor)?;
        let above = scaled as i128 - self.intercept;
        if above.unsigned_abs() < PART_LIMIT {
            Some(Frac::new(above, self.slope as i128))
        } else {
            None
        }
    }
}

#[cfg(test)]
impl Fit {
    /// The divisor, over which the numerators of slope and intercept are.
    pub(crate) fn divisor(&self) -> u128
        ensures { result ≡ self.now.divisor }
    {
        self.divisor
    }
}

impl Points {
    /// The line through the points. Missing, the first of these that holds: `TooFew` where there is no point (weight
    /// `Origin`) or no two amounts differ (the other weights); `Unfit`, for weight `Inverse` alone, where the least
    /// common multiple of the amounts is 2^60 or more, or Sx Swy is 2^126 or more; `NotRising` where the slope is not
    /// positive. It takes no memory. After the formulas of least squares.
    pub fn fit(&self, weight: Weight) -> Result<Fit, Missing>
        ensures { result ≡ fit_of weight self.now }
    {
        match weight {
            Weight::Equal => self.equal_line(),
            Weight::Origin => self.origin_line(),
            Weight::Inverse => self.inverse_line(),
        }
    }

    /// The line of all points alike.
    fn equal_line(&self) -> Result<Fit, Missing>
        ensures { result ≡ fit_of Weight.Equal self.now }
    {
        let divisor = self.corrected_xx();
        if divisor == 0 {
            return Err(Missing::TooFew);
        }
        let slope = self.corrected_xy();
        if slope == 0 {
            return Err(Missing::NotRising);
        }
        let sums = self.sums();
        Ok(Fit {
            weight: Weight::Equal,
            divisor,
            slope,
            intercept: difference(sums.y * sums.xx, sums.x * sums.xy),
        })
    }

    /// The line through the origin.
    fn origin_line(&self) -> Result<Fit, Missing>
        ensures { result ≡ fit_of Weight.Origin self.now }
    {
        if self.is_empty() {
            return Err(Missing::TooFew);
        }
        let sums = self.sums();
        if sums.xy == 0 {
            return Err(Missing::NotRising);
        }
        Ok(Fit {
            weight: Weight::Origin,
            divisor: sums.xx,
            slope: sums.xy,
            intercept: 0,
        })
    }

    /// The line of points weighted by the inverse of their amounts.
    fn inverse_line(&self) -> Result<Fit, Missing>
        ensures { result ≡ fit_of Weight.Inverse self.now }
    {
        if self.corrected_xx() == 0 {
            return Err(Missing::TooFew);
        }
        match common_multiple(self.as_slice()) {
            Some(multiple) => self.weighted_line(multiple),
            None => Err(Missing::Unfit),
        }
    }

    /// The line of points with the weights M / x, M being `multiple`.
    fn weighted_line(&self, multiple: u64) -> Result<Fit, Missing>
        requires two { IsTrue (differ self.now) }
        requires multiple { multiple ≡ common_multiple self.now }
        requires below { multiple < LCM_LIMIT }
        ensures { result ≡
            (if weights_fit multiple self.now then rising (inverse_line multiple self.now) else Err Missing.Unfit) }
    {
        let (n, sums) = (self.count(), self.sums());
        let weighted = weighted_sums(self.as_slice(), multiple);
        let Some(high) = product_below_limit(sums.x, weighted.wy) else {
            return Err(Missing::Unfit);
        };
        let slope = (weighted.w * sums.y).saturating_sub(n * weighted.wy);
        if slope == 0 {
            return Err(Missing::NotRising);
        }
        let multiple = u128::from(multiple);
        Ok(Fit {
            weight: Weight::Inverse,
            divisor: weighted.w * sums.x - n * n * multiple,
            slope,
            intercept: difference(high, n * multiple * sums.y),
        })
    }
}

/// The difference of two numbers below 2^126.
fn difference(a: u128, b: u128) -> i128
    requires first { a < 2 ^ 126 }
    requires second { b < 2 ^ 126 }
    ensures { result ≡ pos a -ℤ pos b }
{
    a as i128 - b as i128
}
