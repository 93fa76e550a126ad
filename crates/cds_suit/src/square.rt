//! The square of a relative standard deviation, as it is compared.
ghost use Rattle.std.specs.Prelude.{◌≡◌, ℕ, ◌+◌, ◌*◌, ◌^◌, ◌<◌, ◌≤◌, nat_le, length, sum, All, IfOk};
ghost use Rattle.std.specs.Ordering.{nat_cmp};
ghost use Rattle.cds_base.specs.Search.{greatest};
ghost use Rattle.cds_suit.specs.Deviation.{sum_of_squares, if_deviates};
ghost use Rattle.cds_suit.specs.Square.{square_of, reaches, IsSquare};

use cds_base::{AREA_LIMIT, Missing, Reaching, greatest_reached};
use cds_frac::Frac;
use std::cmp::Ordering;

/// The most values of which a relative standard deviation is computed.
pub const MOST_VALUES: usize = 64;

/// No relative standard deviation is above this number of hundredths of a percent: its square is at most the number
/// of values.
pub const MOST_DEVIATION: u32 = 80_000;

/// One, in hundredths of a percent, squared.
pub const ONE_SQUARED: u128 = 100_000_000;

/// The square of a relative standard deviation, as two whole numbers: it is `spread / level`.
#[derive(Clone, Copy, Debug)]
pub struct Square {
    /// n (n Sxx - Sx^2).
    pub spread: u128,
    /// (n - 1) Sx^2.
    pub level: u128,
}

impl Square {
    /// The square of the values' relative standard deviation. Missing: `TooFew` below two values, else `ZeroSum` where
    /// they sum to 0.
    pub fn from_values(values: &[u64]) -> Result<Square, Missing>
        requires few { length values.now ≤ MOST_VALUES }
        requires below { All (λ x. x < AREA_LIMIT) values.now }
        ensures value { result ≡ if_deviates values.now (square_of values.now) }
        ensures shape { IfOk result IsSquare }
    {
        if values.len() < 2 {
            return Err(Missing::TooFew);
        }
        let sums = sums_of(values);
        if sums.x == 0 {
            return Err(Missing::ZeroSum);
        }
        let n = values.len() as u128;
        Ok(Square {
            spread: n * (n * sums.xx - sums.x * sums.x),
            level: (n - 1) * (sums.x * sums.x),
        })
    }

    /// Whether the deviation is at most `q` hundredths of a percent.
    pub fn is_at_most(&self, q: u32) -> bool
        requires { IsSquare self.now }
        ensures { result ≡ nat_le (self.now.spread * ONE_SQUARED) (q * q * self.now.level) }
    {
        self.compared_with(q).is_le()
    }

    /// The deviation in hundredths of a percent, rounded down.
    pub fn floor(&self) -> u32
        requires { IsSquare self.now }
        ensures value { result ≡ greatest (reaches self.now) MOST_DEVIATION }
        ensures reached { result * result * self.now.level ≤ self.now.spread * ONE_SQUARED }
        ensures last { (k : ℕ) → k * k * self.now.level ≤ self.now.spread * ONE_SQUARED → k ≤ result }
        ensures most { result ≤ MOST_DEVIATION }
    {
        greatest_reached(self, MOST_DEVIATION)
    }

    /// How the deviation stands to `q` hundredths of a percent. The two products have up to 186 bits, so they are not
    /// formed: spread / level stands to q^2 / 10^8 as they do.
    fn compared_with(&self, q: u32) -> Ordering
        requires { IsSquare self.now }
        ensures { result ≡ nat_cmp (self.now.spread * ONE_SQUARED) (q * q * self.now.level) }
    {
        let square = Frac::new(self.spread as i128, self.level as i128);
        let limit = Frac::new(squared(q) as i128, ONE_SQUARED as i128);
        square.cmp(&limit)
    }
}

impl Reaching for Square {
    ghost is_fit = { IsSquare };

    ghost reached = { reaches };

    /// Whether the deviation is at least `q` hundredths of a percent.
    fn reaches(&self, q: u32) -> bool {
        self.compared_with(q).is_ge()
    }
}

/// The square of a number.
fn squared(q: u32) -> u128
    ensures value { result ≡ q * q }
    ensures fits { result < 2 ^ 64 }
{
    u128::from(q) * u128::from(q)
}

/// The plain sums of values and of their squares.
#[derive(Clone, Copy, Debug)]
struct Sums {
    x: u128,
    xx: u128,
}

/// The sums of at most 64 values below 2^52.
fn sums_of(values: &[u64]) -> Sums
    requires few { length values.now ≤ MOST_VALUES }
    requires below { All (λ x. x < AREA_LIMIT) values.now }
    ensures x { result.x ≡ sum values.now }
    ensures xx { result.xx ≡ sum_of_squares values.now }
    ensures x_fits { result.x < 2 ^ 58 }
    ensures xx_fits { result.xx < 2 ^ 110 }
{
    let mut sums = Sums { x: 0, xx: 0 };
    for value in values {
        let x = u128::from(*value);
        sums.x += x;
        sums.xx += x * x;
    }
    sums
}
