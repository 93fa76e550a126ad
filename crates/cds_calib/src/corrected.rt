//! The sums of squares and products about the means.
ghost use Rattle.std.specs.Prelude.{◌≡◌, ◌-◌, ◌*◌, ◌^◌, ◌<◌};
ghost use Rattle.cds_calib.specs.Line.{corrected_xx, corrected_yy, corrected_xy};

use crate::points::Points;

impl Points {
    /// n Sxx - Sx^2: 0 exactly where no two amounts differ.
    pub(crate) fn corrected_xx(&self) -> u128
        ensures value { result ≡ corrected_xx self.now }
        ensures bound { result < 2 ^ 72 }
    {
        let sums = self.sums();
        corrected(self.count(), sums.xx, sums.x, sums.x)
    }

    /// n Syy - Sy^2.
    pub(crate) fn corrected_yy(&self) -> u128
        ensures value { result ≡ corrected_yy self.now }
        ensures bound { result < 2 ^ 116 }
    {
        let sums = self.sums();
        corrected(self.count(), sums.yy, sums.y, sums.y)
    }

    /// n Sxy - Sx Sy, and 0 where that is below 0.
    pub(crate) fn corrected_xy(&self) -> u128
        ensures value { result ≡ corrected_xy self.now }
        ensures bound { result < 2 ^ 94 }
    {
        let sums = self.sums();
        corrected(self.count(), sums.xy, sums.x, sums.y)
    }
}

/// n times the sum of the products less the product of the sums, and 0 where that is below 0.
fn corrected(n: u128, products: u128, left: u128, right: u128) -> u128
    requires whole { n * products < 2 ^ 128 }
    requires sums { left * right < 2 ^ 128 }
    ensures { result ≡ n * products - left * right }
{
    (n * products).saturating_sub(left * right)
}
