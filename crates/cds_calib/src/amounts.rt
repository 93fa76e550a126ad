//! The amount of an area.
ghost use Rattle.std.specs.Prelude.{◌≡◌, ◌<◌, ◌≤◌};
ghost use Rattle.cds_calib.specs.Amount.{amount_of};

use crate::fit::Fit;
use cds_base::{AREA_LIMIT, Missing};
use cds_frac::Frac;

/// The amount of a peak of this area, in count milliseconds, times the dilution `u / v` of its sample: the exact
/// number (y - a) / b * u / v. `Unfit` exactly where one of these is 2^126 or more in absolute value: for a line with
/// weight `Inverse` alone, y D' and y D' less the numerator of the intercept, D' being the divisor; for each line, a
/// part of the amount in lowest terms. It takes no memory. This project's own rule.
pub fn amount(fit: &Fit, area: u64, u: u32, v: u32) -> Result<Frac, Missing>
    requires area { area < AREA_LIMIT }
    requires dilution { 1 ≤ v }
    ensures { result ≡ amount_of fit.now area u v }
{
    let Some(undiluted) = fit.undiluted(area) else {
        return Err(Missing::Unfit);
    };
    undiluted.times(u, v).ok_or(Missing::Unfit)
}
