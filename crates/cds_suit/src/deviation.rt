//! The relative standard deviation of values.
ghost use Rattle.std.specs.Prelude.{◌≡◌, ◌<◌, ◌≤◌, length, All, IfOk};
ghost use Rattle.cds_suit.specs.Deviation.{at_most_of, floor_of, IsDeviation};

use crate::square::{MOST_VALUES, Square};
use cds_base::{AREA_LIMIT, Missing};

/// Whether the relative standard deviation of the values is at most `q` hundredths of a percent. It is not rounded:
/// n (n Sxx - Sx^2) 10^8 is compared with q^2 (n - 1) Sx^2. Missing: `TooFew` below two values, else `ZeroSum` where
/// they sum to 0. It takes no memory. After USP General Chapter 621, in this project's form, over reported areas or
/// times of peaks.
pub fn rsd_at_most(values: &[u64], q: u32) -> Result<bool, Missing>
    requires few { length values.now ≤ MOST_VALUES }
    requires below { All (λ x. x < AREA_LIMIT) values.now }
    ensures { result ≡ at_most_of values.now q }
{
    let square = Square::from_values(values)?;
    Ok(square.is_at_most(q))
}

/// The relative standard deviation of the values in hundredths of a percent, rounded down: the greatest `q`, at most
/// `MOST_DEVIATION`, that it is not below. It is for showing, and no limit is to be compared with it. Missing as with
/// `rsd_at_most`. It takes no memory.
pub fn rsd_floor(values: &[u64]) -> Result<u32, Missing>
    requires few { length values.now ≤ MOST_VALUES }
    requires below { All (λ x. x < AREA_LIMIT) values.now }
    ensures value { result ≡ floor_of values.now }
    ensures greatest { IfOk result (IsDeviation values.now) }
{
    let square = Square::from_values(values)?;
    Ok(square.floor())
}
